//! Lines that are read one after another.
ghost use Rattle.std.specs.Prelude.{◌≡◌, List, [], IfOk, length};
ghost use Rattle.paje_lex.specs.LineGrammar.{StandIn};
ghost use Rattle.paje_defs.specs.Words.{words_at_tokens};

use crate::cutting::without_return;
use crate::line_fault::LineFault;
use crate::why::Why;
use paje_defs::DefTable;
use paje_lex::{Token, is_definition, is_skipped, tokens_into};
use paje_model::Entities;
use std::alloc::Global;
use trace_base::{MAX_TRACE_LINE, Memory, Seq};

/// What the lines so far define, and what their events declare and do.
#[derive(Drop)]
pub struct Reader {
    pub definitions: DefTable,
    pub entities: Entities,
    /// The tokens of the last line; the list is used again.
    tokens: Seq<Token>,
}

impl Reader {
    ghost use Rattle.paje_reader.specs.Reader.{HasRead, TakesLine};
    ghost use Rattle.paje_reader.specs.TextLines.{TextLine, defines, reading, tells};

    /// No lines.
    pub fn new(alloc: Global) -> Result<Reader, Memory>
        ensures { IfOk result (HasRead []) }
    {
        let entities = Entities::new(alloc)?;
        Ok(Reader {
            definitions: DefTable::new(alloc),
            entities,
            tokens: Seq::new(alloc),
        })
    }

    /// Takes a definition line, whose tokens these are.
    fn define(&mut self, number: u32, line: &[u8]) -> Result<(), LineFault>
        requires { StandIn (length line.now) self.old.tokens }
        ensures { (before : List TextLine) (at : TextLine) → HasRead before self.old → at.number ≡ number
            → reading at ≡ defines (words_at_tokens line.now self.old.tokens)
            → TakesLine (record { before = before; line = at }) self.new result }
    {
        self.definitions.line(number, line, self.tokens.as_slice())?;
        Ok(())
    }

    /// Takes an event line, whose tokens these are.
    fn tell(&mut self, number: u32, line: &[u8]) -> Result<(), LineFault>
        requires read { (before : List TextLine) × HasRead before self.old }
        requires within { StandIn (length line.now) self.old.tokens }
        ensures { (before : List TextLine) (at : TextLine) → HasRead before self.old → at.number ≡ number
            → reading at ≡ tells (words_at_tokens line.now self.old.tokens)
            → TakesLine (record { before = before; line = at }) self.new result }
    {
        if self.definitions.is_inside() {
            return Err(LineFault::Refused(Why::Unended));
        }
        let fields = self.definitions.event(line, self.tokens.as_slice())?;
        self.entities.apply(number, &fields)?;
        Ok(())
    }

    /// Takes the line of this number, whose bytes are without the newline.
    pub fn line(&mut self, number: u32, bytes: &[u8]) -> Result<(), LineFault>
        requires { (before : List TextLine) × HasRead before self.old }
        ensures { (before : List TextLine) → HasRead before self.old → TakesLine (record {
          before = before;
          line = record { number = number; bytes = bytes.now };
        }) self.new result }
    {
        if bytes.len() > MAX_TRACE_LINE {
            return Err(LineFault::Refused(Why::LongLine));
        }
        let line = without_return(bytes);
        if is_skipped(line) {
            return Ok(());
        }
        tokens_into(&mut self.tokens, line)?;
        if is_definition(line) {
            self.define(number, line)
        } else {
            self.tell(number, line)
        }
    }
}
