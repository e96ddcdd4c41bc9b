//! A track whose lines are still read.
ghost use Rattle.std.specs.Prelude.{◌≡◌, ◌+◌, ◌≤◌, ◌<◌, ◌^◌, ◌++◌, replicate, true, OnOk, IfOk};
ghost use Rattle.trace_base.specs.declared.stream.Event.TheVariants.{Leave};
ghost use Rattle.paje_lines.specs.EventLine.{pops, pushes};

use paje_defs::EventName;
use paje_lines::Effect;
use trace_base::{Event, Memory, Seq};

/// What a track's lines have made of it: its events, how many of its calls are open, and its last time
/// (nanoseconds).
#[derive(Debug, Drop)]
pub struct OpenTrack {
    pub events: Seq<Event>,
    pub open_calls: u32,
    pub last: u64,
}

/// Adds a Leave for each of so many calls.
fn leave_calls(events: &mut Seq<Event>, calls: u32, time: u64) -> Result<(), Memory>
    ensures { OnOk result (events.new ≡ events.old ++ replicate calls (Leave time)) }
{
    for i in 0..calls {
        events.push(Event::Leave(time))?;
    }
    Ok(())
}

impl OpenTrack {
    ghost use Rattle.paje_model.specs.OpenTrack.{behind_event, effect_on, with_call, without_calls};

    /// Enters a call. After `Memory` the track may only be dropped.
    fn enter(&mut self, function: u32, time: u64) -> Result<(), Memory>
        requires { self.old.open_calls + 1 < 2 ^ 32 }
        ensures { OnOk result (self.new ≡ with_call function time self.old) }
    {
        self.events.push(Event::Enter(function, time))?;
        self.open_calls += 1;
        self.last = time;
        Ok(())
    }

    /// Leaves so many of the last calls. After `Memory` the track may only be dropped.
    pub fn leave(&mut self, calls: u32, time: u64) -> Result<(), Memory>
        requires { calls ≤ self.old.open_calls }
        ensures { OnOk result (self.new ≡ without_calls calls time self.old) }
    {
        leave_calls(&mut self.events, calls, time)?;
        self.open_calls -= calls;
        self.last = time;
        Ok(())
    }

    /// Adds what a state event does, and says what that is. An event that enters a call enters the function
    /// of this number. After `Memory` the track may only be dropped.
    pub fn change(&mut self, event: EventName, function: u32, time: u64) -> Result<Effect, Memory>
        requires open { pops event ≡ true → 1 ≤ self.old.open_calls }
        requires room { pushes event ≡ true → self.old.open_calls + 1 < 2 ^ 32 }
        ensures changed { OnOk result (self.new ≡ behind_event event function time self.old) }
        ensures effect { IfOk result (λ done. done ≡ effect_on event self.old) }
    {
        let open = self.open_calls;
        match event {
            EventName::PushState => {
                self.enter(function, time)?;
                Ok(Effect::Entered)
            }
            EventName::SetState => {
                self.leave(open, time)?;
                self.enter(function, time)?;
                Ok(Effect::Entered)
            }
            EventName::PopState => {
                self.leave(1, time)?;
                Ok(Effect::Left(1))
            }
            EventName::ResetState => {
                self.leave(open, time)?;
                Ok(Effect::Left(open))
            }
            _ => Ok(Effect::Dropped),
        }
    }
}
