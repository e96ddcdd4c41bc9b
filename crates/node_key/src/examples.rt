//! The definitions, computed on small trees and keys. Each clause is the equation; the bodies are empty, but
//! for those that make a key.
ghost use Rattle.std.specs.Prelude.{◌≡◌, ◌∷◌, []};
ghost use Rattle.node_key.specs.Tree.{height, nodes, total};
ghost use Rattle.node_key.specs.Keys.{IsKeyOf, different_subtrees, distinct};
ghost use Rattle.node_key.specs.Rooms.{room};
ghost use Rattle.node_key.specs.Examples.{half, inner_key, half_key, leaf_of_three, outer_key, recursion};
ghost use Rattle.node_key.specs.Examples.{recursion_key};
ghost use Rattle.node_key.specs.Examples.{tenth, tenth_key, track_key, track_of_half};

use crate::key::{Kid, NodeKey};

/// The parts of the tree of a track in which main calls f twice, and those of a recursion.
pub fn parts_of_small_trees()
    ensures heights { height tenth ∷ height half ∷ height track_of_half ∷ [] ≡ 0 ∷ 1 ∷ 2 ∷ [] }
    ensures totals { total half.kids ≡ 400000000 }
    ensures nodes { nodes track_of_half ≡ 4 }
{}

/// The two calls of f are one tree, so that the track has three.
#[tactic(auto, unfolding(crate::specs::Keys::different_subtrees))]
pub fn different_subtrees_of_small_trees()
    ensures which { different_subtrees (track_of_half ∷ []) ≡ track_of_half ∷ half ∷ tenth ∷ [] }
    ensures twice { distinct (track_of_half ∷ track_of_half ∷ []) ≡ 3 }
    ensures recursion { distinct (recursion ∷ []) ≡ 3 }
{}

/// Rooms of keys, each over the numbers that a new store gives to the kids.
#[tactic(auto, unfolding(crate::specs::Rooms::room))]
pub fn rooms_of_small_keys()
    ensures no_time { room leaf_of_three ≡ 3 }
    ensures two_calls { room tenth_key ∷ room half_key ∷ room track_key ∷ [] ≡ 0 ∷ 12 ∷ 4 ∷ [] }
    ensures recursion { room inner_key ∷ room outer_key ∷ room recursion_key ∷ [] ≡ 3 ∷ 13 ∷ 13 ∷ [] }
{}

/// The key of f, which calls nothing.
pub fn key_of_tenth() -> NodeKey
    ensures { IsKeyOf tenth [] result }
{
    NodeKey::leaf(2, 100_000_000)
}

/// The key of main over its two calls of f, which has number 0.
pub fn key_of_half() -> NodeKey
    ensures { IsKeyOf half (0 ∷ 0 ∷ []) result }
{
    let call = Kid {
        gap: 100_000_000,
        span: 100_000_000,
        node: 0,
    };
    NodeKey::over(1, 500_000_000, 1, &[call, call])
}
