//! The definitions, computed on small streams. Each clause is the equation; the bodies are empty.
ghost use Rattle.std.specs.Prelude.{◌≡◌, [], ◌∷◌, take};
ghost use Rattle.trace_base.specs.Flat.{flat};
ghost use Rattle.trace_base.specs.Examples.{two_calls, recursion, no_length};
ghost use Rattle.trace_base.specs.Stream.{stack_after, pieces};

/// The call stack after the first two events of main calling f: main, and f innermost.
#[tactic(auto, unfolding(crate::specs::Stream::stack_after))]
pub fn stack_of_two_calls()
    ensures inside { stack_after (take 2 two_calls.events) ≡ 1 ∷ 2 ∷ [] }
    ensures between { stack_after (take 3 two_calls.events) ≡ 1 ∷ [] }
    ensures at_end { stack_after two_calls.events ≡ [] }
{}

/// The pieces of a recursive call.
#[tactic(auto, unfolding(crate::specs::Stream::stack_after, crate::specs::Stream::pieces))]
pub fn pieces_of_recursion()
    ensures { pieces recursion ≡ record { from = 0; to = 0; stack = [] }
        ∷ record { from = 0; to = 2; stack = 1 ∷ [] }
        ∷ record { from = 2; to = 4; stack = 1 ∷ 1 ∷ [] } ∷ record { from = 4; to = 10; stack = 1 ∷ [] }
        ∷ record { from = 10; to = 10; stack = [] } ∷ [] }
{}

/// The flat profile of main calling f, over all its time, over a part that cuts calls, and between two
/// events.
#[tactic(auto, unfolding(crate::specs::Stream::stack_after, crate::specs::Stream::pieces, crate::specs::Flat::time_with, crate::specs::Flat::calls_in, crate::specs::Flat::row_of, crate::specs::Flat::greatest_function, crate::specs::Flat::flat))]
pub fn flat_of_two_calls()
    ensures whole { flat (two_calls ∷ []) 0 500000000 ≡ record {
      bare = 0;
      rows =
          record { func = 1; calls = 1; incl = 500000000; excl = 300000000 }
          ∷ record { func = 2; calls = 2; incl = 200000000; excl = 200000000 } ∷ [];
    } }
    ensures part { flat (two_calls ∷ []) 150000000 350000000 ≡ record {
      bare = 0;
      rows =
          record { func = 1; calls = 0; incl = 200000000; excl = 100000000 }
          ∷ record { func = 2; calls = 1; incl = 100000000; excl = 100000000 } ∷ [];
    } }
    // The interval begins at an Enter, which counts, and ends at one, which doesn't.
    ensures at_events { flat (two_calls ∷ []) 100000000 300000000 ≡ record {
      bare = 0;
      rows =
          record { func = 1; calls = 0; incl = 200000000; excl = 100000000 }
          ∷ record { func = 2; calls = 1; incl = 100000000; excl = 100000000 } ∷ [];
    } }
    // Over the same stream twice the numbers are added.
    ensures twice { flat (two_calls ∷ two_calls ∷ []) 0 500000000 ≡ record {
      bare = 0;
      rows =
          record { func = 1; calls = 2; incl = 1000000000; excl = 600000000 }
          ∷ record { func = 2; calls = 4; incl = 400000000; excl = 400000000 } ∷ [];
    } }
{}

/// The flat profile of a recursive call counts its time once, and one of calls of no length has a row without
/// time: the call at the interval's start counts, the call at its end doesn't.
#[tactic(auto, unfolding(crate::specs::Stream::stack_after, crate::specs::Stream::pieces, crate::specs::Flat::time_with, crate::specs::Flat::calls_in, crate::specs::Flat::row_of, crate::specs::Flat::greatest_function, crate::specs::Flat::flat))]
pub fn flat_of_short_calls()
    ensures recursion { flat (recursion ∷ []) 0 10 ≡ record {
      bare = 0;
      rows =
          record { func = 1; calls = 2; incl = 10; excl = 10 } ∷ [];
    } }
    ensures no_length { flat (no_length ∷ []) 10 20 ≡ record {
      bare = 10;
      rows =
          record { func = 1; calls = 1; incl = 0; excl = 0 } ∷ [];
    } }
{}
