//! The definitions, computed on small streams. Each clause is the equation; the bodies are empty.
ghost use Rattle.std.specs.Prelude.{◌≡◌, ◌∷◌, [], length, map};
ghost use Rattle.trace_base.specs.declared.stream.Event.TheVariants.{Enter, Leave};
ghost use Rattle.trace_base.specs.Examples.{two_calls, recursion, no_length};
ghost use Rattle.node_key.specs.Calls.{calls, outermost_calls, inner_calls};
ghost use Rattle.node_key.specs.Bound.{bound};
ghost use Rattle.node_key.specs.Trees.{tree};
ghost use Rattle.node_key.specs.Events.{events};
ghost use Rattle.call_tree.specs.Examples.{calls_of_main, in_a_row, nothing, second_later, second_longer};
ghost use Rattle.call_tree.specs.Examples.{touching};
ghost use Rattle.node_key.specs.Keys.{distinct};
ghost use Rattle.std.specs.Prelude.{false, true};
ghost use Rattle.node_key.specs.Tree.{count, height, kid, no_kids, nodes, same_tree};

/// Main calls f twice: the calls as pairs of positions, and which lie in no other.
#[tactic(auto, unfolding(node_key::specs::Calls::outer_calls))]
pub fn calls_of_two_calls()
    ensures all { calls two_calls.events ≡ record { enter = 0; leave = 5 } ∷ record { enter = 1; leave = 2 }
        ∷ record { enter = 3; leave = 4 } ∷ [] }
    ensures outermost { outermost_calls two_calls.events ≡ record { enter = 0; leave = 5 } ∷ [] }
    ensures inner { inner_calls two_calls.events (record { enter = 0; leave = 5 })
        ≡ record { enter = 1; leave = 2 } ∷ record { enter = 3; leave = 4 } ∷ [] }
{}

/// Trees of small streams.
#[tactic(auto, unfolding(node_key::specs::Calls::outer_calls, node_key::specs::Bound::grouped, node_key::specs::Bound::bound, node_key::specs::Trees::tree))]
pub fn trees_of_small_streams()
    ensures two_calls { tree two_calls ≡ record {
      func = 0;
      dur = 500000000;
      kids = kid 0 1 500000000 (kid 100000000 2 100000000 no_kids (kid 100000000 2 100000000 no_kids no_kids))
          no_kids;
    } }
    ensures recursion { tree recursion ≡ record {
      func = 0;
      dur = 10;
      kids = kid 0 1 10 (kid 2 1 2 no_kids no_kids) no_kids;
    } }
    ensures no_length { tree no_length ≡ record {
      func = 0;
      dur = 100;
      kids = kid 10 1 0 no_kids (kid 10 1 0 no_kids no_kids);
    } }
{}

/// Bounded lists of 8, 9, 16, 17 and 65 calls.
#[tactic(auto, unfolding(node_key::specs::Bound::grouped, node_key::specs::Bound::bound))]
pub fn bounded_lists()
    ensures eight { bound (in_a_row 8) ≡ in_a_row 8 }
    ensures nine { map (λ i. count i.tree.kids) (bound (in_a_row 9)) ≡ 8 ∷ 0 ∷ [] }
    ensures sixteen { map (λ i. count i.tree.kids) (bound (in_a_row 16)) ≡ 8 ∷ 8 ∷ [] }
    ensures seventeen { map (λ i. count i.tree.kids) (bound (in_a_row 17)) ≡ 8 ∷ 8 ∷ 0 ∷ [] }
    ensures sixty_five { map (λ i. height i.tree) (bound (in_a_row 65)) ≡ 2 ∷ 0 ∷ [] }
{}

/// A stream without calls, calls that touch, nine calls in one call, and what is one tree: the same a second
/// later is, with a longer call it isn't.
#[tactic(auto, unfolding(node_key::specs::Calls::outer_calls, node_key::specs::Bound::grouped, node_key::specs::Bound::bound, node_key::specs::Trees::tree, node_key::specs::Keys::different_subtrees))]
pub fn trees_of_more_streams()
    ensures nothing { tree nothing ≡ record { func = 0; dur = 2; kids = no_kids } }
    ensures touching { tree touching ≡ record {
      func = 0;
      dur = 9;
      kids = kid 0 1 4 no_kids (kid 0 2 5 no_kids no_kids);
    } }
    ensures nine { height (tree (calls_of_main 9)) ∷ nodes (tree (calls_of_main 9))
        ∷ distinct (tree (calls_of_main 9)
        ∷ []) ∷ [] ≡ 3 ∷ 12 ∷ 4 ∷ [] }
    ensures later { same_tree (tree second_later) (tree two_calls) ≡ true }
    ensures longer { same_tree (tree second_longer) (tree two_calls) ≡ false }
    ensures distinct { distinct (tree two_calls ∷ []) ≡ 3 }
{}

/// The events of a tree from a time on.
#[tactic(auto, unfolding(node_key::specs::Events::events))]
pub fn events_of_a_small_tree()
    ensures { events (record { func = 0; dur = 10; kids = kid 1 7 5 (kid 2 8 3 no_kids no_kids) no_kids }) 20
        ≡ Enter 7 21 ∷ Enter 8 23 ∷ Leave 26 ∷ Leave 26 ∷ [] }
{}
