//! The definitions of timelines, call-tree profiles, messages and matrices, computed on small inputs. Each
//! clause is the equation; the bodies are empty.
ghost use Rattle.std.specs.Prelude.{◌≡◌, [], ◌∷◌};
ghost use Rattle.trace_base.specs.FoldExamples.{no_time_under, both_ways, siblings, three_starts, crossed};
ghost use Rattle.trace_base.specs.FoldExamples.{end_first};
ghost use Rattle.trace_base.specs.Matrix.{matrix_of};
ghost use Rattle.trace_base.specs.Messages.{table_of};
ghost use Rattle.trace_base.specs.Paths.{paths};
ghost use Rattle.trace_base.specs.Examples.{two_calls, recursion, no_length};
ghost use Rattle.trace_base.specs.Timeline.{timeline};

/// The timeline of main calling f in five pixels, in one with a tie, and in three that are a nanosecond each.
#[tactic(auto, unfolding(crate::specs::Stream::stack_after, crate::specs::Stream::pieces, crate::specs::Flat::time_with, crate::specs::Flat::calls_in, crate::specs::Flat::row_of, crate::specs::Flat::greatest_function, crate::specs::Flat::flat, crate::specs::Timeline::timeline))]
pub fn timeline_of_two_calls()
    ensures whole { timeline two_calls 0 500000000 5 ≡ 1 ∷ 2 ∷ 1 ∷ 2 ∷ 1 ∷ [] }
    ensures tie { timeline two_calls 0 200000000 1 ≡ 1 ∷ [] }
    ensures short { timeline two_calls 0 3 3 ≡ 1 ∷ 1 ∷ 1 ∷ [] }
    // A function that began a call but took no time of its own is not shown.
    ensures no_length { timeline no_length 10 20 1 ≡ 0 ∷ [] }
    // The bounds of the pixels are rounded down: they are 0, 1 and 3.
    ensures uneven { timeline both_ways 0 3 2 ≡ 2 ∷ 1 ∷ [] }
{}

/// The call-tree profile of a call that calls itself, of two functions that call each other, of a path that
/// is told only because a call under it began, and of siblings.
#[tactic(auto, unfolding(crate::specs::Stream::stack_after, crate::specs::Stream::pieces, crate::specs::Flat::time_with, crate::specs::Paths::calls_making, crate::specs::Paths::path_row, crate::specs::Paths::path_stands, crate::specs::Paths::call_paths, crate::specs::Paths::paths))]
pub fn paths_of_small_streams()
    ensures recursion { paths (recursion ∷ []) 0 10 ≡ record {
      bare = 0;
      rows =
          record { depth = 1; func = 1; calls = 1; incl = 10; excl = 8 }
          ∷ record { depth = 2; func = 1; calls = 1; incl = 2; excl = 2 } ∷ [];
    } }
    ensures both_ways { paths (both_ways ∷ []) 0 10 ≡ record {
      bare = 0;
      rows =
          record { depth = 1; func = 1; calls = 1; incl = 6; excl = 5 }
          ∷ record { depth = 2; func = 2; calls = 1; incl = 1; excl = 1 }
          ∷ record { depth = 1; func = 2; calls = 1; incl = 4; excl = 2 }
          ∷ record { depth = 2; func = 1; calls = 1; incl = 2; excl = 2 } ∷ [];
    } }
    ensures under { paths (no_time_under ∷ []) 10 20 ≡ record {
      bare = 10;
      rows =
          record { depth = 1; func = 1; calls = 0; incl = 0; excl = 0 }
          ∷ record { depth = 2; func = 2; calls = 1; incl = 0; excl = 0 } ∷ [];
    } }
    // A path stands before those that go on from it, and siblings rise by function.
    ensures siblings { paths (siblings ∷ []) 0 20 ≡ record {
      bare = 8;
      rows =
          record { depth = 1; func = 1; calls = 1; incl = 12; excl = 4 }
          ∷ record { depth = 2; func = 2; calls = 1; incl = 3; excl = 3 }
          ∷ record { depth = 2; func = 3; calls = 1; incl = 5; excl = 2 }
          ∷ record { depth = 3; func = 2; calls = 1; incl = 3; excl = 3 } ∷ [];
    } }
    // Over the same stream twice the numbers are added.
    ensures twice { paths (recursion ∷ recursion ∷ []) 3 10 ≡ record {
      bare = 0;
      rows =
          record { depth = 1; func = 1; calls = 0; incl = 14; excl = 12 }
          ∷ record { depth = 2; func = 1; calls = 0; incl = 2; excl = 2 } ∷ [];
    } }
{}

/// The table of three starts and two ends, and its matrix over an interval with both messages and over one
/// that ends where the first is sent.
#[tactic(auto, unfolding(crate::specs::Messages::messages_started, crate::specs::Messages::in_table_order, crate::specs::Messages::table_of, crate::specs::Matrix::pair_row, crate::specs::Matrix::pairs_of, crate::specs::Matrix::matrix_of))]
pub fn messages_of_three_starts()
    ensures table { table_of three_starts ≡ record {
      messages =
          record { from = 1; to = 2; send = 1000000000; receive = 1500000000; size = 100 }
          ∷ record { from = 2; to = 1; send = 3000000000; receive = 2500000000; size = 7 } ∷ [];
      unmatched = 1;
    } }
    ensures matrix { matrix_of ((table_of three_starts).messages) 0 4000000000 ≡ record {
      rows =
          record {
            from = 1;
            to = 2;
            count = 1;
            bytes = 100;
            transit = 500000000;
            greatest = 500000000;
            backward = 0;
          }
          ∷ record { from = 2; to = 1; count = 1; bytes = 7; transit = 0; greatest = 0; backward = 1 } ∷ [];
    } }
    ensures none { matrix_of ((table_of three_starts).messages) 0 1000000000 ≡ record { rows = [] } }
{}

/// The table of two starts before two ends of one key, beside another link type with that key: messages of
/// one pair stand by the time they were sent, and those that tie in the order of their starts. The matrix
/// counts them over intervals that end where the last is sent and after it. An end may stand before its
/// start.
#[tactic(auto, unfolding(crate::specs::Messages::messages_started, crate::specs::Messages::in_table_order, crate::specs::Messages::table_of, crate::specs::Matrix::pair_row, crate::specs::Matrix::pairs_of, crate::specs::Matrix::matrix_of))]
pub fn messages_of_crossed_links()
    ensures table { table_of crossed ≡ record {
      messages =
          record { from = 3; to = 4; send = 5; receive = 30; size = 2 }
          ∷ record { from = 3; to = 4; send = 5; receive = 6; size = 4 }
          ∷ record { from = 3; to = 4; send = 10; receive = 20; size = 0 } ∷ [];
      unmatched = 0;
    } }
    ensures two { matrix_of ((table_of crossed).messages) 5 10 ≡ record {
      rows =
          record { from = 3; to = 4; count = 2; bytes = 6; transit = 26; greatest = 25; backward = 0 } ∷ [];
    } }
    ensures three { matrix_of ((table_of crossed).messages) 5 11 ≡ record {
      rows =
          record { from = 3; to = 4; count = 3; bytes = 6; transit = 36; greatest = 25; backward = 0 } ∷ [];
    } }
    ensures end_first { table_of end_first ≡ record {
      messages =
          record { from = 1; to = 2; send = 4; receive = 7; size = 0 } ∷ [];
      unmatched = 1;
    } }
{}
