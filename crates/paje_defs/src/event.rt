ghost use Rattle.std.specs.Prelude.{◌≡◌, ◌<◌, length, IfOk, Ok};
ghost use Rattle.std.specs.Option.{option_copied};
ghost use Rattle.paje_lex.specs.LineGrammar.{StandIn};
ghost use Rattle.paje_defs.specs.declared.role.Role.{Role};
ghost use Rattle.paje_defs.specs.Words.{words_in, words_at_tokens};
ghost use Rattle.paje_defs.specs.Events.{Event, RolesStand, Tells, told_event, message_size, role_text};
ghost use Rattle.paje_defs.specs.Events.{field_size, size_field, timed, time_of_text};
ghost use Rattle.paje_defs.specs.Texts.{text_by_role};
ghost use Rattle.paje_defs.specs.Table.{definitions_of};

use crate::complete::Complete;
use crate::event_fault::EventFault;
use crate::event_name::EventName;
use crate::field::Field;
use crate::field_type::FieldType;
use crate::fields::Fields;
use crate::numbers::{event_number, size};
use crate::role::Role;
use crate::table::DefTable;
use crate::texts::Texts;
use crate::words::Words;
use paje_lex::{DateFault, Token, date};

/// The time of an event line.
fn time(texts: &Texts<'_>) -> Result<u64, DateFault>
    ensures { result ≡ time_of_text (text_by_role texts.now Role.Time) }
{
    match texts.get(Role::Time) {
        Some(text) => date(text),
        None => Ok(0),
    }
}

impl Complete {
    /// The bytes of each role's field of a line.
    fn texts<'a>(&'a self, words: &Words<'a, 'a>) -> Texts<'a>
        ensures { (role : Role) → text_by_role result role ≡ role_text self.now.definition (words_in words.now)
            role }
    {
        Texts {
            words: *words,
            places: &self.places,
        }
    }

    /// The field of a message's size.
    fn size_field(&self) -> Option<&Field>
        ensures { option_copied result ≡ size_field self.now.definition }
    {
        match self.places.get(Role::Size) {
            Some(place) => self.definition.fields.get(place),
            None => None,
        }
    }

    /// The size that the field of a message's size tells.
    fn told_size(&self, texts: &Texts<'_>) -> u64
        ensures { result ≡ field_size (size_field self.now.definition) (text_by_role texts.now Role.Size) }
    {
        let Some(field) = self.size_field() else {
            return 0;
        };
        let FieldType::Int = field.kind else {
            return 0;
        };
        match texts.get(Role::Size) {
            Some(text) => size(text),
            None => 0,
        }
    }

    /// The size of a message, 0 where the line starts none.
    fn size(&self, texts: &Texts<'_>) -> u64
        ensures { result ≡ message_size self.now.definition.event (field_size (size_field self.now.definition)
            (text_by_role texts.now Role.Size)) }
    {
        match self.definition.event {
            EventName::StartLink => self.told_size(texts),
            _ => 0,
        }
    }

    /// What an event line of this definition tells.
    fn read<'a>(&'a self, words: &Words<'a, 'a>) -> Result<Fields<'a>, EventFault>
        requires enough { length self.now.definition.fields < length (words_in words.now) }
        ensures { Tells (words_in words.now) result (timed self.now.definition
            (time_of_text (role_text self.now.definition (words_in words.now) Role.Time))) }
    {
        let texts = self.texts(words);
        let time = match time(&texts) {
            Ok(time) => time,
            Err(fault) => return Err(EventFault::Date(fault)),
        };
        Ok(Fields {
            kind: self.definition.event,
            time,
            size: self.size(&texts),
            texts,
        })
    }
}

impl DefTable {
    fn read_event<'a>(
        &'a self,
        line: &'a [u8],
        tokens: &'a [Token],
    ) -> Result<Fields<'a>, EventFault>
        requires { StandIn (length line.now) tokens.now }
        ensures { Tells (words_at_tokens line.now tokens.now) result
            (told_event (definitions_of self.now).complete (words_at_tokens line.now tokens.now)) }
    {
        let words = Words::new(line, tokens);
        let Some(first) = words.get(0) else {
            return Err(EventFault::NoNumber);
        };
        let Some(number) = event_number(first) else {
            return Err(EventFault::NoNumber);
        };
        let Some(complete) = self.complete(number) else {
            return Err(EventFault::UnknownNumber);
        };
        if words.len() <= complete.definition.fields.len() {
            return Err(EventFault::TooFew);
        }
        complete.read(&words)
    }

    /// The fields of an event line with the tokens that it has, under the definitions so far. It takes no
    /// memory.
    ///
    /// # Errors
    ///
    /// In this order: `NoNumber`, `UnknownNumber`, `TooFew`, `Date`.
    pub fn event<'a>(
        &'a self,
        line: &'a [u8],
        tokens: &'a [Token],
    ) -> Result<Fields<'a>, EventFault>
        requires { StandIn (length line.now) tokens.now }
        ensures exact { Tells (words_at_tokens line.now tokens.now) result
            (told_event (definitions_of self.now).complete (words_at_tokens line.now tokens.now)) }
        // A role has a text exactly where the definition of the line has a field of it.
        ensures stand { (event : Event) → told_event (definitions_of self.now).complete
            (words_at_tokens line.now tokens.now) ≡ Ok event
            → IfOk result (RolesStand event.definition) }
    {
        self.read_event(line, tokens)
    }
}
