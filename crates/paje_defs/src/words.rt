ghost use Rattle.std.specs.Prelude.{◌≡◌, ◌+◌, codes, length, slice_get};
ghost use Rattle.std.specs.Option.{option_copied};
ghost use Rattle.paje_lex.specs.LineGrammar.{StandIn};

use crate::event_name::EventName;
use crate::field_name::FieldName;
use crate::field_type::FieldType;
use crate::numbers::event_number;
use paje_lex::Token;

/// A line with its tokens, whose bytes are its words.
#[derive(Clone, Copy, Debug)]
pub struct Words<'a, 't> {
    line: &'a [u8],
    tokens: &'t [Token],
    ghost within: { StandIn (length line.now) tokens.now },
}

fn begin_text() -> &'static [u8]
    ensures { result.now ≡ codes "EventDef" }
{
    b"EventDef"
}

fn end_text() -> &'static [u8]
    ensures { result.now ≡ codes "EndEventDef" }
{
    b"EndEventDef"
}

impl<'a, 't> Words<'a, 't> {
    ghost use Rattle.paje_defs.specs.Words.{words_in, words_at_tokens};
    ghost use Rattle.paje_defs.specs.Lines.{begins_definition, defined_event, defined_number};
    ghost use Rattle.paje_defs.specs.Lines.{ends_definition, field_name};
    ghost use Rattle.paje_defs.specs.Lines.{field_type, opens_with};

    /// The words of a line, by the tokens that it has.
    pub fn new(line: &'a [u8], tokens: &'t [Token]) -> Words<'a, 't>
        requires { StandIn (length line.now) tokens.now }
        ensures { words_in result ≡ words_at_tokens line.now tokens.now }
    {
        Words { line, tokens }
    }

    /// How many they are.
    pub fn len(&self) -> usize
        ensures { result ≡ length (words_in self.now) }
    {
        self.tokens.len()
    }

    /// The word at a place, counted from 0.
    pub fn get(&self, at: usize) -> Option<&'a [u8]>
        ensures { option_copied result ≡ slice_get (words_in self.now) at }
    {
        if at >= self.tokens.len() {
            return None;
        }
        let token = self.tokens[at];
        Some(&self.line[token.from as usize..token.to as usize])
    }

    /// The word of the field at a place, counted from 0: the first word is the number.
    pub fn field(&self, place: usize) -> Option<&'a [u8]>
        ensures { option_copied result ≡ slice_get (words_in self.now) (place + 1) }
    {
        if place >= self.tokens.len() {
            return None;
        }
        self.get(place + 1)
    }

    fn opens_with(&self, name: &[u8]) -> bool
        ensures { result ≡ opens_with name.now (words_in self.now) }
    {
        match self.get(0) {
            Some(first) => first == name,
            None => false,
        }
    }

    /// Whether they begin a definition.
    pub fn begins(&self) -> bool
        ensures { result ≡ begins_definition (words_in self.now) }
    {
        self.opens_with(begin_text())
    }

    /// Whether they end a definition.
    pub fn ends(&self) -> bool
        ensures { result ≡ ends_definition (words_in self.now) }
    {
        self.opens_with(end_text())
    }

    /// The event of a definition that they begin.
    pub fn defined_event(&self) -> Option<EventName>
        ensures { result ≡ defined_event (words_in self.now) }
    {
        match self.get(1) {
            Some(name) => EventName::from_text(name),
            None => None,
        }
    }

    /// The number of a definition that they begin.
    pub fn defined_number(&self) -> Option<u32>
        ensures { result ≡ defined_number (words_in self.now) }
    {
        match self.get(2) {
            Some(number) => event_number(number),
            None => None,
        }
    }

    /// The name of the field that they add.
    pub fn field_name(&self) -> FieldName
        ensures { result ≡ field_name (words_in self.now) }
    {
        match self.get(0) {
            Some(name) => FieldName::from_text(name),
            None => FieldName::Other,
        }
    }

    /// The type of the field that they add.
    pub fn field_type(&self) -> Option<FieldType>
        ensures { result ≡ field_type (words_in self.now) }
    {
        match self.get(1) {
            Some(kind) => FieldType::from_text(kind),
            None => None,
        }
    }
}
