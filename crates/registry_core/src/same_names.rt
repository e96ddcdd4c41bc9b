ghost use Rattle.std.specs.Prelude.{◌≡◌, ◌↔◌, IsTrue};

use trace_base::Name;

/// Whether both are the same list of names.
pub(crate) fn are_same(a: &[Name], b: &[Name]) -> bool
    ensures { IsTrue result ↔ (a.now ≡ b.now) }
{
    if a.len() != b.len() {
        return false;
    }
    for i in 0..a.len() {
        if a[i].as_bytes() != b[i].as_bytes() {
            return false;
        }
    }
    true
}
