//! What a state event meets on its track.
ghost use Rattle.std.specs.Prelude.{◌≡◌, ◌&&◌, ◌==◌, nat_le, if◌then◌else◌, option_map, None};
ghost use Rattle.paje_lines.specs.declared.model_fault.ModelFault.TheVariants.{AfterDestroy, Deep, EmptyPop};
ghost use Rattle.paje_lines.specs.EventLine.{EventLine, pops, pushes};
ghost use Rattle.paje_lines.specs.Reasons.{Met, back_reason, full, met_reason};
ghost use Rattle.paje_defs.specs.Refusals.{when};
ghost use Rattle.paje_model.specs.Finds.{Finds};
ghost use Rattle.trace_base.specs.declared.limits.TheConstants.{MAX_OPEN_CALLS};

use crate::room::room;
use paje_defs::EventName;
use paje_lines::{ModelFault, What};
use trace_base::MAX_OPEN_CALLS;

/// What a state event meets on its track: the line that destroyed the container, the track's last time
/// (nanoseconds) and its open calls, and how many state events, tracks and functions there are before it.
#[derive(Clone, Copy, Debug)]
pub struct StateMet {
    pub destroyed: Option<u32>,
    pub last_time: u64,
    pub open_calls: u32,
    pub states: u32,
    pub tracks: usize,
    pub is_new_track: bool,
    pub functions: usize,
    pub is_new_function: bool,
}

/// The container exists still.
fn not_destroyed(destroyed: Option<u32>) -> Result<(), ModelFault>
    ensures { Finds (option_map AfterDestroy destroyed) (λ _. Unit {0}) result }
{
    match destroyed {
        Some(line) => Err(ModelFault::AfterDestroy(line)),
        None => Ok(()),
    }
}

/// The time isn't below the one before.
pub fn not_back(time: u64, before: u64) -> Result<(), ModelFault>
    ensures { Finds (back_reason time before) (λ _. Unit {0}) result }
{
    if time < before {
        return Err(ModelFault::TimeBack(before));
    }
    Ok(())
}

fn is_pop(event: EventName) -> bool
    ensures { result ≡ pops event }
{
    match event {
        EventName::PopState => true,
        _ => false,
    }
}

fn is_push(event: EventName) -> bool
    ensures { result ≡ pushes event }
{
    match event {
        EventName::PushState => true,
        _ => false,
    }
}

/// A call is open, where the event leaves one.
fn some_open(event: EventName, open_calls: u32) -> Result<(), ModelFault>
    ensures { Finds (when (pops event && (open_calls == 0)) EmptyPop) (λ _. Unit {0}) result }
{
    if is_pop(event) && open_calls == 0 {
        return Err(ModelFault::EmptyPop);
    }
    Ok(())
}

/// There is room for one more call, where the event enters one behind the others.
fn not_deep(event: EventName, open_calls: u32) -> Result<(), ModelFault>
    ensures { Finds (when (pushes event && nat_le MAX_OPEN_CALLS open_calls) Deep) (λ _. Unit {0}) result }
{
    if is_push(event) && open_calls as usize >= MAX_OPEN_CALLS {
        return Err(ModelFault::Deep);
    }
    Ok(())
}

/// There is room for one more, where it is new.
fn room_for_new(is_new: bool, what: What, count: usize) -> Result<(), ModelFault>
    ensures { Finds (if is_new then full what count else None) (λ _. Unit {0}) result }
{
    if is_new { room(what, count) } else { Ok(()) }
}

impl StateMet {
    ghost use Rattle.paje_model.specs.StateMet.{Reads};

    /// Whether there is no reason against an event that meets it at this time, in nanoseconds.
    ///
    /// # Errors
    ///
    /// The first reason.
    pub fn check(&self, event: EventName, time: u64) -> Result<(), ModelFault>
        ensures { (line : EventLine) (m : Met) → line.event ≡ event → line.time ≡ time → Reads self.now m
            → Finds (met_reason line m) (λ _. Unit {0}) result }
    {
        not_destroyed(self.destroyed)?;
        not_back(time, self.last_time)?;
        some_open(event, self.open_calls)?;
        not_deep(event, self.open_calls)?;
        room(What::StateEvents, self.states as usize)?;
        room_for_new(self.is_new_track, What::Tracks, self.tracks)?;
        room_for_new(self.is_new_function, What::Functions, self.functions)
    }
}
