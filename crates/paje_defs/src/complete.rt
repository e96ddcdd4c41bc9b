ghost use Rattle.std.specs.Prelude.{◌≡◌};
ghost use Rattle.std.proofs.Props.{props};
ghost use Rattle.paje_defs.specs.Definition.{IsWhole};
ghost use Rattle.paje_defs.specs.Places.{ArePlacesOf};

use crate::definition::Definition;
use crate::places::Places;

/// A definition that has its end, with the places of its fields. It has a field of each role that its event
/// needs.
#[derive(Debug, Drop)]
pub struct Complete {
    pub(crate) definition: Definition,
    pub(crate) places: Places,
    ghost whole: { IsWhole definition },
    ghost placed: { ArePlacesOf definition places } by { Prim.hlevel props },
}

impl Complete {
    /// A definition with its places.
    pub(crate) fn new(definition: Definition) -> Complete
        requires { IsWhole definition }
        ensures { result.definition ≡ definition }
    {
        let places = Places::new(definition.event, definition.fields.as_slice());
        Complete { definition, places }
    }
}
