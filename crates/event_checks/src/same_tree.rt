ghost use Rattle.std.specs.Prelude.{◌≡◌, ◌↔◌, IsTrue};
ghost use Rattle.node_key.specs.Tree.{count};

use node_key::CallTree;

// Whether the nodes of two trees have one function, one duration and as many kids.
fn have_same_node(a: &CallTree, b: &CallTree) -> bool
    ensures { IsTrue result ↔ ((a.now.func ≡ b.now.func) × (a.now.dur ≡ b.now.dur)
        × (count a.now.kids ≡ count b.now.kids)) }
{
    a.func() == b.func() && a.dur() == b.dur() && a.len() == b.len()
}

/// Whether two trees are equal. It takes no memory.
pub fn are_same(a: &CallTree, b: &CallTree) -> bool
    ensures { IsTrue result ↔ (a.now ≡ b.now) }
{
    if !have_same_node(a, b) {
        return false;
    }
    for i in 0..a.len() {
        if a.gap(i) != b.gap(i) {
            return false;
        }
        if !are_same(a.kid(i), b.kid(i)) {
            return false;
        }
    }
    true
}
