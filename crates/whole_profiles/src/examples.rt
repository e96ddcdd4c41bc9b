//! The whole profiles of small trees, computed. Each clause is the equation; the bodies are empty.
ghost use Rattle.std.specs.Prelude.{◌≡◌, ◌∷◌, []};
ghost use Rattle.trace_base.specs.Flat.{flat};
ghost use Rattle.node_key.specs.Examples.{recursion};
ghost use Rattle.whole_profiles.specs.Entry.{entry_kind, entry_rows};
ghost use Rattle.whole_profiles.specs.Examples.{call_at_the_end, no_time};
ghost use Rattle.whole_profiles.specs.Whole.{whole_profile};
ghost use Rattle.node_key.specs.Whole.{whole_flat, whole_paths, whole_stream};
ghost use Rattle.whole_profiles.specs.declared.memo_kind.MemoKind.TheVariants.{Flat, Paths};

/// A leaf that takes no time has one call.
#[tactic(auto, unfolding(node_key::specs::Events::events, trace_base::specs::Stream::stack_after, trace_base::specs::Stream::pieces, trace_base::specs::Flat::time_with, trace_base::specs::Flat::calls_in, trace_base::specs::Flat::row_of, trace_base::specs::Flat::greatest_function, trace_base::specs::Flat::flat))]
pub fn whole_profile_of_a_leaf()
    ensures { whole_flat no_time ≡ record {
      bare = 0;
      rows = record { func = 3; calls = 1; incl = 0; excl = 0 } ∷ [];
    } }
{}

/// A call that takes no time at the end of its track is told, and isn't over the time of the track alone.
#[tactic(auto, unfolding(node_key::specs::Events::events, trace_base::specs::Stream::stack_after, trace_base::specs::Stream::pieces, trace_base::specs::Flat::time_with, trace_base::specs::Flat::calls_in, trace_base::specs::Flat::row_of, trace_base::specs::Flat::greatest_function, trace_base::specs::Flat::flat))]
pub fn whole_profiles_to_the_end()
    ensures whole { whole_flat call_at_the_end ≡ record {
      bare = 2;
      rows = record { func = 2; calls = 1; incl = 3; excl = 3 }
          ∷ record { func = 3; calls = 1; incl = 0; excl = 0 } ∷ [];
    } }
    ensures less { flat (whole_stream call_at_the_end) 0 5 ≡ record {
      bare = 2;
      rows = record { func = 2; calls = 1; incl = 3; excl = 3 } ∷ [];
    } }
{}

/// A recursion: its function's time counts once in the flat profile, and each path has its own row in the
/// other.
#[tactic(auto, unfolding(node_key::specs::Events::events, trace_base::specs::Stream::stack_after, trace_base::specs::Stream::pieces, trace_base::specs::Flat::time_with, trace_base::specs::Flat::calls_in, trace_base::specs::Flat::row_of, trace_base::specs::Flat::greatest_function, trace_base::specs::Flat::flat, trace_base::specs::Paths::calls_making, trace_base::specs::Paths::path_row, trace_base::specs::Paths::path_stands, trace_base::specs::Paths::call_paths, trace_base::specs::Paths::paths))]
pub fn whole_profiles_of_a_recursion()
    ensures flat { whole_flat recursion ≡ record {
      bare = 0;
      rows = record { func = 1; calls = 2; incl = 10; excl = 10 } ∷ [];
    } }
    ensures paths { whole_paths recursion ≡ record {
      bare = 0;
      rows = record { depth = 1; func = 1; calls = 1; incl = 10; excl = 8 }
          ∷ record { depth = 2; func = 1; calls = 1; incl = 2; excl = 2 } ∷ [];
    } }
    ensures rows { entry_rows (whole_profile Flat recursion) ∷ entry_rows (whole_profile Paths recursion) ∷ []
        ≡ 1 ∷ 2 ∷ [] }
    ensures kinds { entry_kind (whole_profile Paths recursion) ≡ Paths }
{}
