ghost use Rattle.std.specs.Prelude.{◌≡◌};

use trace_base::LinkEvent;

/// What the two ends of a message have in common: the link type, by its place among the link types, and the
/// key.
#[derive(Clone, Copy, PartialEq, Eq, Hash)]
pub struct LinkKey<'a> {
    pub kind: u32,
    pub key: &'a [u8],
}

/// The link type and the key of a link event.
pub fn key_of(link: &LinkEvent) -> LinkKey<'_>
    ensures kind { result.kind ≡ link.now.kind }
    ensures key { result.key.now ≡ link.now.key }
{
    LinkKey {
        kind: link.kind,
        key: link.key.as_bytes(),
    }
}
