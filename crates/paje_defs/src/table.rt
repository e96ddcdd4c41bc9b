ghost use Rattle.std.specs.Prelude.{◌≡◌, List, length, is_some, Some, Err, []};
ghost use Rattle.std.specs.Option.{option_copied, option_map};
ghost use Rattle.paje_lex.specs.LineGrammar.{StandIn};
ghost use Rattle.paje_lex.specs.declared.unread.Unread.TheVariants.{Refused};
ghost use Rattle.paje_defs.specs.declared.def_fault.DefFault.{DefFault};

use crate::begun::Begun;
use crate::complete::Complete;
use crate::def_fault::DefFault;
use crate::definition::Definition;
use crate::words::Words;
use indexmap::IndexMap;
use paje_lex::{Token, Unread};
use std::alloc::Global;
use trace_base::Seq;

/// The definitions of a trace.
#[derive(Drop)]
pub struct DefTable {
    alloc: Global,
    complete: IndexMap<u32, Complete>,
    begun: Option<Begun>,
    fault: Option<DefFault>,
}

impl DefTable {
    ghost use Rattle.paje_defs.specs.Words.{words_in, words_at_tokens};
    ghost use Rattle.paje_defs.specs.Lines.{Line, begin_reason, definition_of, definitions_of_lines};
    ghost use Rattle.paje_defs.specs.Lines.{end_reason, field_reason, first_line, definition_reason};
    ghost use Rattle.paje_defs.specs.Table.{TakesUnless, TakesNext, after, after_begin, after_end};
    ghost use Rattle.paje_defs.specs.Table.{after_field};
    ghost use Rattle.paje_defs.specs.Table.{definitions_of, numbered_line};

    /// No definitions. It takes no memory.
    pub fn new(alloc: Global) -> DefTable
        ensures { definitions_of result ≡ definitions_of_lines [] }
    {
        DefTable {
            alloc,
            complete: IndexMap::new(alloc),
            begun: None,
            fault: None,
        }
    }

    /// Whether a definition is begun and not ended.
    pub fn is_inside(&self) -> bool
        ensures { result ≡ is_some (definitions_of self.now).begun }
    {
        self.begun.is_some()
    }

    /// The complete definition of a number.
    pub(crate) fn complete(&self, number: u32) -> Option<&Complete>
        ensures { option_map (λ c. c.definition) (option_copied result)
            ≡ definition_of (definitions_of self.now).complete number }
    {
        self.complete.get(&number)
    }

    /// The line that begins the definition of a number, where there is one.
    fn first_line(&self, number: u32) -> Option<u32>
        ensures { result ≡ first_line (definitions_of self.now).complete number }
    {
        self.complete(number)
            .map(|complete| complete.definition.line)
    }

    /// `%EventDef name number`
    fn begin(&mut self, n: u32, words: &Words<'_, '_>) -> Result<(), Unread<DefFault>>
        ensures { TakesUnless (definitions_of self.old) (definitions_of self.new) result
            (begin_reason (definitions_of self.old).complete (definitions_of self.old).begun
            (words_in words.now))
            (after_begin (definitions_of self.old) (numbered_line n (words_in words.now))) }
    {
        let Some(number) = words.defined_number() else {
            return Err(Unread::Refused(DefFault::Shape));
        };
        if self.begun.is_some() {
            return Err(Unread::Refused(DefFault::Nested));
        }
        let Some(event) = words.defined_event() else {
            return Err(Unread::Refused(DefFault::UnknownName));
        };
        if let Some(first) = self.first_line(number) {
            return Err(Unread::Refused(DefFault::DoubleNumber(first)));
        }
        self.begun = Some(Begun {
            number,
            definition: Definition {
                line: n,
                event,
                fields: Seq::new(self.alloc),
            },
        });
        Ok(())
    }

    /// `% field type`
    fn field(&mut self, words: &Words<'_, '_>) -> Result<(), Unread<DefFault>>
        ensures { TakesUnless (definitions_of self.old) (definitions_of self.new) result
            (field_reason (definitions_of self.old).begun (words_in words.now))
            (after_field (definitions_of self.old) (words_in words.now)) }
    {
        if words.get(1).is_none() {
            return Err(Unread::Refused(DefFault::Shape));
        }
        let Some(mut begun) = self.begun.take() else {
            return Err(Unread::Refused(DefFault::Shape));
        };
        let added = begun.add(words);
        self.begun = Some(begun);
        added
    }

    /// `%EndEventDef`
    #[tactic(auto, using(crate::proofs::WithoutPlaces::insert_without))]
    fn end(&mut self) -> Result<(), Unread<DefFault>>
        ensures { TakesUnless (definitions_of self.old) (definitions_of self.new) result
            (end_reason (definitions_of self.old).begun) (after_end (definitions_of self.old)) }
    {
        let Some(begun) = self.begun.take() else {
            return Err(Unread::Refused(DefFault::Shape));
        };
        if let Some(role) = begun.definition.missing() {
            self.begun = Some(begun);
            return Err(Unread::Refused(DefFault::MissingField(role)));
        }
        let Begun { number, definition } = begun;
        match self.complete.insert(number, Complete::new(definition)) {
            Ok(_) => Ok(()),
            Err(failed) => {
                let (
                    number,
                    Complete {
                        definition,
                        places: _,
                    },
                ) = failed.value;
                self.begun = Some(Begun { number, definition });
                Err(Unread::Memory)
            }
        }
    }

    /// A definition line, as if none had been refused.
    fn step(&mut self, n: u32, line: &[u8], tokens: &[Token]) -> Result<(), Unread<DefFault>>
        requires { StandIn (length line.now) tokens.now }
        ensures { TakesUnless (definitions_of self.old) (definitions_of self.new) result
            (definition_reason (definitions_of self.old).complete (definitions_of self.old).begun
            (words_at_tokens line.now tokens.now))
            (after (definitions_of self.old) (numbered_line n (words_at_tokens line.now tokens.now))) }
    {
        let words = Words::new(line, tokens);
        if words.begins() {
            return self.begin(n, &words);
        }
        if words.ends() {
            return self.end();
        }
        self.field(&words)
    }

    /// Takes a definition line, the `n`th of its text, with the tokens that it has.
    ///
    /// `%EventDef name number` begins a definition, `% field type` adds a field to it, and `%EndEventDef`
    /// ends it; further tokens are dropped. After a refusal each later call gives the same refusal, and the
    /// definitions stay as before the refused line. After `Memory` the table is unchanged.
    ///
    /// # Errors
    ///
    /// `Refused` with the first of these: `Shape`, `Nested`, `UnknownName`, `DoubleNumber` for a begin;
    /// `Shape`, `UnknownType` for a field; `Shape`, `MissingField` with the first role that is missing for an
    /// end. `Memory`.
    pub fn line(&mut self, n: u32, line: &[u8], tokens: &[Token]) -> Result<(), Unread<DefFault>>
        requires { StandIn (length line.now) tokens.now }
        // The table tells what its lines so far make known.
        ensures so_far { (before : List Line) → definitions_of self.old ≡ definitions_of_lines before
            → TakesNext before (numbered_line n (words_at_tokens line.now tokens.now))
            (definitions_of self.new) result }
        ensures refused { (fault : DefFault) → (definitions_of self.old).fault ≡ Some fault
            → (result ≡ Err (Refused fault)) × (definitions_of self.new ≡ definitions_of self.old) }
    {
        if let Some(fault) = self.fault {
            return Err(Unread::Refused(fault));
        }
        let taken = self.step(n, line, tokens);
        if let Err(unread) = taken {
            self.fault = unread.reason();
        }
        taken
    }
}
