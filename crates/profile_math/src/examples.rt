//! The sum and the closing of profiles, computed on small ones. Each clause is the equation; the bodies are
//! empty.
ghost use Rattle.std.specs.Prelude.{◌≡◌, true, false, [], ◌∷◌};
ghost use Rattle.profile_math.specs.Closing.{closed};
ghost use Rattle.profile_math.specs.Examples.{row, nothing, evens, odds};
ghost use Rattle.profile_math.specs.Examples.{path_line, no_paths, recursive, calls_both_ways};
ghost use Rattle.profile_math.specs.PathClosing.{closed_paths};
ghost use Rattle.profile_math.specs.PathSum.{sum_of_paths};
ghost use Rattle.profile_math.specs.Sum.{sum_of};
ghost use Rattle.trace_base.specs.Examples.{recursion, two_calls};
ghost use Rattle.trace_base.specs.Flat.{flat};

/// Sums: of an empty profile on each side, of rows that interleave, that have the same functions, and that
/// stand before all others.
#[tactic(auto, unfolding(crate::specs::InOrder::in_order, crate::specs::Sum::by_function, crate::specs::Sum::sum_of))]
pub fn sums_of_small_profiles()
    ensures left { sum_of nothing evens ≡ evens }
    ensures right { sum_of evens nothing ≡ evens }
    ensures interleaved { sum_of evens odds ≡ record {
      bare = 3;
      rows = row 1 1 9 8 ∷ row 2 1 4 3 ∷ row 3 0 1 1 ∷ row 4 2 2 1 ∷ row 5 1 0 0 ∷ [];
    } }
    ensures same { sum_of evens evens ≡ record { bare = 2; rows = row 2 2 8 6 ∷ row 4 4 4 2 ∷ [] } }
    ensures before { sum_of evens (record { bare = 0; rows = row 1 1 1 1 ∷ [] }) ≡ record {
      bare = 1;
      rows = row 1 1 1 1 ∷ row 2 1 4 3 ∷ row 4 2 2 1 ∷ [];
    } }
{}

/// The halves of a recursive call's time, added.
#[tactic(auto, unfolding(trace_base::specs::Stream::stack_after, trace_base::specs::Stream::pieces, trace_base::specs::Flat::time_with, trace_base::specs::Flat::calls_in, trace_base::specs::Flat::row_of, trace_base::specs::Flat::greatest_function, trace_base::specs::Flat::flat, crate::specs::InOrder::in_order, crate::specs::Sum::by_function, crate::specs::Sum::sum_of))]
pub fn sum_of_two_halves()
    ensures halves { sum_of (flat (recursion ∷ []) 0 4) (flat (recursion ∷ []) 4 10)
        ≡ record { bare = 0; rows = row 1 2 10 10 ∷ [] } }
    // Two streams of one trace.
    ensures streams { sum_of (flat (recursion ∷ []) 0 10) (flat (two_calls ∷ []) 0 10)
        ≡ record { bare = 0; rows = row 1 3 20 20 ∷ [] } }
{}

/// Closings: of a recursion over itself, where its time counts once; of a call of no length, begun and not;
/// of bare time between other functions.
#[tactic(auto, unfolding(crate::specs::Closing::closed_rows, crate::specs::Closing::closed))]
pub fn closings_of_small_profiles()
    ensures recursion { closed 1 true (record { bare = 8; rows = row 1 1 2 2 ∷ [] })
        ≡ record { bare = 0; rows = row 1 2 10 10 ∷ [] } }
    ensures begun { closed 3 true nothing ≡ record { bare = 0; rows = row 3 1 0 0 ∷ [] } }
    ensures not_begun { closed 3 false nothing ≡ nothing }
    ensures between { closed 3 true evens ≡ record {
      bare = 0;
      rows = row 2 1 4 3 ∷ row 3 1 5 1 ∷ row 4 2 2 1 ∷ [];
    } }
    ensures known { closed 4 false evens ≡ record { bare = 0; rows = row 2 1 4 3 ∷ row 4 2 5 2 ∷ [] } }
{}

/// Sums by path: of an empty profile on each side, of paths that differ in the callee and in the caller, and
/// of a child whose parent has none in the first profile.
#[tactic(auto, unfolding(crate::specs::InOrder::in_order, crate::specs::PathSum::numbers_of, crate::specs::PathSum::by_path, crate::specs::PathSum::sum_of_paths))]
pub fn sums_of_small_path_profiles()
    ensures left { sum_of_paths no_paths recursive ≡ recursive }
    ensures right { sum_of_paths recursive no_paths ≡ recursive }
    ensures both { sum_of_paths recursive calls_both_ways ≡ record {
      bare = 3;
      rows = path_line 1 1 2 14 11 ∷ path_line 2 1 1 2 2 ∷ path_line 2 2 1 1 1
          ∷ path_line 1 2 1 10 4 ∷ path_line 2 1 3 6 6 ∷ [];
    } }
    ensures same { sum_of_paths recursive recursive ≡ record {
      bare = 2;
      rows = path_line 1 1 2 10 6 ∷ path_line 2 1 2 4 4 ∷ path_line 1 2 2 8 8 ∷ [];
    } }
{}

/// Closings by path: over a function that the content has already, and of a call of no length, begun and not.
#[tactic(auto, unfolding(crate::specs::PathSum::numbers_of, crate::specs::PathClosing::closed_paths))]
pub fn closings_of_small_path_profiles()
    ensures known { closed_paths 1 true recursive ≡ record {
      bare = 0;
      rows = path_line 1 1 1 10 1 ∷ path_line 2 1 1 5 3 ∷ path_line 3 1 1 2 2 ∷ path_line 2 2 1 4 4
          ∷ [];
    } }
    ensures begun { closed_paths 3 true no_paths ≡ record { bare = 0; rows = path_line 1 3 1 0 0 ∷ [] } }
    ensures not_begun { closed_paths 3 false no_paths ≡ no_paths }
    ensures bare { closed_paths 3 false (record { bare = 4; rows = [] }) ≡ record {
      bare = 0;
      rows = path_line 1 3 0 4 4 ∷ [];
    } }
{}
