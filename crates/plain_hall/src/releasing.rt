ghost use Rattle.std.specs.Prelude.{◌≡◌, ◌++◌, List, [], unwrap_or};
ghost use Rattle.node_key.specs.declared.stake.Stake.{Stake};
ghost use Rattle.node_store.specs.Given.{ever};
ghost use Rattle.node_store.specs.Kept.{AreKept, KeepsFor, NextNeverFalls};
ghost use Rattle.plain_hall.specs.Rooted.{stakes_under};

use node_store::NodeStore;
use registry_core::Roots;

/// Gives back a reference to each of these roots. The nodes that nothing else needs go.
pub fn release_roots(nodes: &mut NodeStore, mut roots: Roots)
    requires store { AreKept nodes.old }
    requires roots { (rest : List Stake) × KeepsFor nodes.old (stakes_under (ever nodes.old.given) roots
        ++ rest) }
    ensures given { nodes.new.given ≡ nodes.old.given }
    ensures store { AreKept nodes.new }
    ensures roots { (rest : List Stake) → KeepsFor nodes.old (stakes_under (ever nodes.old.given) roots ++ rest)
        → KeepsFor nodes.new rest }
    ensures next { NextNeverFalls nodes.old nodes.new }
{
    while let Some(root) = roots.pop() {
        nodes.drop_other(root);
    }
}

/// Gives back a reference to each of these roots, if some came free.
pub fn release_freed(nodes: &mut NodeStore, freed: Option<Roots>)
    requires store { AreKept nodes.old }
    requires roots { (rest : List Stake) × KeepsFor nodes.old (stakes_under (ever nodes.old.given)
        (unwrap_or freed []) ++ rest) }
    ensures given { nodes.new.given ≡ nodes.old.given }
    ensures store { AreKept nodes.new }
    ensures roots { (rest : List Stake) → KeepsFor nodes.old (stakes_under (ever nodes.old.given)
        (unwrap_or freed []) ++ rest) → KeepsFor nodes.new rest }
    ensures next { NextNeverFalls nodes.old nodes.new }
{
    if let Some(roots) = freed {
        release_roots(nodes, roots);
    }
}
