ghost use Rattle.std.specs.Prelude.{is_none};
ghost use Rattle.std.specs.Option.{option_to_list};
ghost use Rattle.paje_defs.specs.declared.def_fault.DefFault.TheVariants.{UnknownType};
ghost use Rattle.paje_defs.specs.Words.{words_in};
ghost use Rattle.paje_defs.specs.Lines.{field_of, field_type};
ghost use Rattle.paje_defs.specs.Refusals.{when};
ghost use Rattle.paje_defs.specs.Table.{TakesUnless, grown};

use crate::def_fault::DefFault;
use crate::definition::Definition;
use crate::field::Field;
use crate::words::Words;
use paje_lex::Unread;

/// A definition that is begun and not ended.
#[derive(Debug, Drop)]
pub struct Begun {
    pub(crate) number: u32,
    pub(crate) definition: Definition,
}

impl Begun {
    /// Adds the field of a line.
    pub(crate) fn add(&mut self, words: &Words<'_, '_>) -> Result<(), Unread<DefFault>>
        ensures { TakesUnless self.old self.new result
            (when (is_none (field_type (words_in words.now))) UnknownType)
            (grown (option_to_list (field_of (words_in words.now))) self.old) }
    {
        let Some(kind) = words.field_type() else {
            return Err(Unread::Refused(DefFault::UnknownType));
        };
        let name = words.field_name();
        match self.definition.fields.push(Field { name, kind }) {
            Ok(()) => Ok(()),
            Err(_) => Err(Unread::Memory),
        }
    }
}
