//! What the event lines of a trace declare and do so far.
ghost use Rattle.std.specs.Prelude.{◌≡◌, List, [], IfOk, Some, None, Err};
ghost use Rattle.paje_lines.specs.EventLine.{EventLine, line_of};
ghost use Rattle.paje_lines.specs.Text.{text_said};
ghost use Rattle.paje_lines.specs.declared.model_fault.ModelFault.{ModelFault};
ghost use Rattle.paje_lex.specs.declared.unread.Unread.{Unread};

use crate::known::Known;
use paje_defs::Fields;
use paje_lex::Unread;
use paje_lines::{Effect, ModelFault};
use std::alloc::Global;
use trace_base::{Memory, TraceText};

/// The entities of a trace, its tracks and its open calls, behind its event lines so far.
#[derive(Drop)]
pub struct Entities {
    known: Known,
    /// The greatest time of all lines, in nanoseconds.
    greatest: u64,
    /// Why the first line that wasn't taken was not: a reason against it, or want of memory.
    fault: Option<Unread<ModelFault>>,
}

impl Entities {
    ghost use Rattle.paje_model.specs.StandsFor.{Applies, IsOpen, StandsFor};

    /// The root container and the root type; `Memory` where none was found for them.
    pub fn new(alloc: Global) -> Result<Entities, Memory>
        ensures { IfOk result (StandsFor []) }
    {
        Ok(Entities {
            known: Known::new(alloc)?,
            greatest: 0,
            fault: None,
        })
    }

    /// Takes an event line, the `n`th of its text, with what it tells, and says what it does. After an error
    /// each later call gives the same one; after `Memory` the entities may only be dropped.
    ///
    /// # Errors
    ///
    /// `Refused` with the first reason against the line, by the lines before it, in the order in which its
    /// event checks them; `Memory`.
    pub fn apply(&mut self, n: u32, fields: &Fields<'_>) -> Result<Effect, Unread<ModelFault>>
        requires { IsOpen self.old }
        ensures exact { (before : List EventLine) → StandsFor before self.old
            → Applies before (line_of n fields.now) self.new result }
        ensures refused { (unread : Unread ModelFault) → self.old.fault ≡ Some unread
            → (result ≡ Err unread) × (self.new ≡ self.old) }
    {
        if let Some(unread) = self.fault {
            return Err(unread);
        }
        let taken = self.known.take(n, fields);
        self.greatest = self.greatest.max(fields.time());
        if let Err(unread) = taken {
            self.fault = Some(unread);
        }
        taken
    }

    /// What the lines say. Calls that are open are left where their tracks end.
    ///
    /// It stands for entities that took each line they were told. Who has had an error from
    /// [`Entities::apply`], a refusal or `Memory`, can't show the `requires`: the entities may then only be
    /// dropped, and nothing is said of them.
    ///
    /// # Errors
    ///
    /// `Memory` where none was found for the trace.
    pub fn finish(self) -> Result<TraceText, Memory>
        requires { (lines : List EventLine) × StandsFor lines self }
        ensures { (lines : List EventLine) → StandsFor lines self
            → IfOk result (λ text. text ≡ text_said lines) }
    {
        let Entities {
            known,
            greatest,
            ..
        } = self;
        known.finish(greatest)
    }
}
