//! Lines that enter and leave calls.
ghost use Rattle.std.specs.Prelude.{◌≡◌, ℕ, List, [], ◌∷◌, ◌++◌, Some, true, position, IfOk, MatchResult};
ghost use Rattle.paje_lines.specs.EventLine.{EventLine, enters, is_state_event, line_of};
ghost use Rattle.paje_lines.specs.Effects.{effect};
ghost use Rattle.paje_lines.specs.Reasons.{met, state_reason};
ghost use Rattle.paje_lines.specs.States.{entered_text, functions_entered, is_same, track_named, tracks_in};
ghost use Rattle.paje_model.specs.FunctionPlace.{function_place};
ghost use Rattle.paje_model.specs.StateMet.{Reads};
ghost use Rattle.paje_model.specs.StateSpot.{IsSpot};
ghost use Rattle.paje_model.specs.TrackTable.{track_of};

use crate::found::text_of;
use crate::found_track::{destroyed_on, found_track, last_time, open_calls, start_of};
use crate::function_place::FunctionPlace;
use crate::known::Known;
use crate::state_met::StateMet;
use crate::state_spot::StateSpot;
use crate::track_table::Pair;
use paje_defs::{EventName, Fields, Role};
use paje_lex::Unread;
use paje_lines::{Effect, ModelFault};
use trace_base::Memory;

/// Whether an event enters a call.
fn enters(event: EventName) -> bool
    ensures { result ≡ enters event }
{
    match event {
        EventName::PushState => true,
        EventName::SetState => true,
        _ => false,
    }
}

impl Known {
    ghost use Rattle.paje_model.specs.Known.{IsKnown, IsOfLines};
    ghost use Rattle.paje_model.specs.Steps.{Takes};

    /// What a state event meets on the track of a pair, by the places where that and its function were found.
    fn state_met(&self, pair: Pair, place: Option<usize>, function: FunctionPlace) -> StateMet
        ensures { (before : List EventLine) (line : EventLine) → IsKnown before self.now
            → track_named before line ≡ Some (track_of pair)
            → place ≡ position (is_same (track_of pair)) (tracks_in before)
            → function ≡ function_place (functions_entered before)
            (entered_text (record { before = before; line = line }))
            → Reads result (met before line (track_of pair)) }
    {
        let existing = self.containers.get(pair.container as usize);
        let track = self.tracks.found(place);
        StateMet {
            destroyed: destroyed_on(existing),
            last_time: last_time(track, start_of(existing)),
            open_calls: open_calls(track),
            states: self.states,
            tracks: self.tracks.len(),
            is_new_track: place.is_none(),
            functions: self.functions.len(),
            is_new_function: function.is_new(),
        }
    }

    /// Where a state event stands, against which there is no reason.
    ///
    /// # Errors
    ///
    /// The first reason.
    fn state_spot(&self, fields: &Fields<'_>) -> Result<StateSpot, ModelFault>
        requires { IsOfLines self.now }
        ensures { (n : ℕ) (before : List EventLine) → IsKnown before self.now
            → MatchResult result (IsSpot before (line_of n fields.now))
            (λ fault. state_reason before (line_of n fields.now) ≡ Some fault) }
    {
        let kind = self.state_type(fields)?;
        let container = self.container(fields, Role::Holder)?;
        let pair = Pair { container, kind };
        let place = self.tracks.place(pair);
        let text = self
            .values
            .text(kind as usize, text_of(fields, Role::Value));
        let function = self.functions.find(enters(fields.kind()), text);
        self.state_met(pair, place, function)
            .check(fields.kind(), fields.time())?;
        Ok(StateSpot {
            pair,
            place,
            function,
        })
    }

    /// Adds a state event where it stands. After `Memory` it may only be dropped.
    fn add_state(&mut self, spot: StateSpot, fields: &Fields<'_>) -> Result<Effect, Memory>
        requires event { is_state_event fields.now.kind ≡ true }
        requires spot { (n : ℕ) × (before : List EventLine) × IsKnown before self.old
            × IsSpot before (line_of n fields.now) spot }
        ensures { (n : ℕ) (before : List EventLine) → IsKnown before self.old
            → IsSpot before (line_of n fields.now) spot
            → IfOk result (λ done. (done ≡ effect before (line_of n fields.now))
            × IsKnown (before ++ line_of n fields.now ∷ []) self.new) }
    {
        let pair = spot.pair;
        let value = text_of(fields, Role::Value);
        let number = self
            .functions
            .number(spot.function, &self.values, pair.kind, value)?;
        let track = found_track(&mut self.tracks, &mut self.containers, pair, spot.place)?;
        let effect = self
            .tracks
            .change(track, fields.kind(), number, fields.time())?;
        self.containers
            .touch(pair.container as usize, fields.time());
        self.states += 1;
        Ok(effect)
    }

    /// A state event of a track.
    pub fn state_event(&mut self, n: u32, fields: &Fields<'_>) -> Result<Effect, Unread<ModelFault>>
        requires known { IsOfLines self.old }
        requires event { is_state_event (line_of n fields.now).event ≡ true }
        ensures { (before : List EventLine) → IsKnown before self.old → Takes (record {
          before = before;
          line = line_of n fields.now;
          reason = state_reason before (line_of n fields.now);
          effect = effect before (line_of n fields.now);
        }) self.new result }
    {
        let spot = self.state_spot(fields)?;
        Ok(self.add_state(spot, fields)?)
    }
}
