//! Why lines are refused, one after another. The statements are the clauses; the bodies are empty.
ghost use Rattle.std.specs.Prelude.{◌≡◌, ◌+◌, ◌-◌, [], ◌∷◌, map, replicate, codes, Some, None, false};
ghost use Rattle.paje_lines.specs.Reasons.{full, limit_of, met_reason, new_reason, link_reason, event_refusal};
ghost use Rattle.paje_lines.specs.States.{open_behind};
ghost use Rattle.paje_lines.specs.Types.{type_entities};
ghost use Rattle.paje_lines.specs.Examples.{stage, refused_next, declares, declares_link, creates_at};
ghost use Rattle.paje_lines.specs.Examples.{destroys_at, entering_at, leaves_at, sends_at, receives_at};
ghost use Rattle.paje_lines.specs.Examples.{happens_at, value_of, push_at, pop_at, open_track};

use crate::model_fault::ModelFault;
use crate::what::What;
use paje_defs::{EventName, Role};
use trace_base::{
    MAX_CONTAINERS, MAX_FUNCTIONS, MAX_LINK_EVENTS, MAX_OPEN_CALLS, MAX_STATE_EVENTS, MAX_TRACKS,
    MAX_TYPES, MAX_VALUES,
};

/// Lines that declare types, behind others: one that isn't refused, one for each reason, and one for each two
/// reasons that stand beside each other.
pub fn type_reasons()
    ensures behind { event_refusal stage ≡ None }
    ensures types { refused_next (
        declares EventName.DefineStateType (Some (codes "T")) (codes "P") (codes "State")
        ∷ declares EventName.DefineContainerType None (codes "/") (codes "Thread")
        ∷ declares EventName.DefineStateType (Some (codes "T")) (codes "Q") (codes "State")
        ∷ declares EventName.DefineEventType (Some (codes "T")) (codes "S") (codes "Point")
        ∷ declares EventName.DefineVariableType (Some (codes "S")) (codes "P") (codes "State")
        ∷ declares EventName.DefineContainerType None (codes "P") (codes "K")
        ∷ declares EventName.DefineContainerType (Some (codes "/")) (codes "P") (codes "x")
        ∷ declares EventName.DefineContainerType (Some (codes "0")) (codes "P") (codes "x")
        ∷ declares EventName.DefineStateType (Some (codes "S")) (codes "Q") (codes "State")
        ∷ declares EventName.DefineStateType (Some (codes "S")) (codes "K") (codes "State") ∷ [])
        ≡ None ∷ None ∷ Some (ModelFault.UnknownEntity Role.Kind) ∷ Some (ModelFault.WrongKind Role.Kind)
        ∷ Some (ModelFault.DoubleAlias 2) ∷ Some (ModelFault.DoubleAlias 4) ∷ Some (ModelFault.DoubleAlias 0)
        ∷ Some (ModelFault.DoubleAlias 0) ∷ Some (ModelFault.UnknownEntity Role.Kind)
        ∷ Some (ModelFault.WrongKind Role.Kind) ∷ [] }
    // A container's alias is none of a type's.
    ensures other_space { refused_next (
        declares EventName.DefineStateType (Some (codes "p0")) (codes "P") (codes "State") ∷ []) ≡ None ∷ [] }
    ensures link_types { refused_next (
        declares_link (codes "L") (codes "P") (codes "0") (codes "Process") (codes "Put")
        ∷ declares_link (codes "L") (codes "Q") (codes "Q") (codes "P") (codes "Put")
        ∷ declares_link (codes "L") (codes "V") (codes "Q") (codes "P") (codes "Put")
        ∷ declares_link (codes "L") (codes "P") (codes "Q") (codes "Q") (codes "Put")
        ∷ declares_link (codes "L") (codes "P") (codes "V") (codes "Q") (codes "Put")
        ∷ declares_link (codes "K") (codes "P") (codes "P") (codes "Q") (codes "Put")
        ∷ declares_link (codes "K") (codes "P") (codes "P") (codes "V") (codes "Put")
        ∷ declares_link (codes "K") (codes "P") (codes "P") (codes "P") (codes "Put") ∷ [])
        ≡ None ∷ Some (ModelFault.UnknownEntity Role.Kind) ∷ Some (ModelFault.WrongKind Role.Kind)
        ∷ Some (ModelFault.UnknownEntity Role.FromKind) ∷ Some (ModelFault.WrongKind Role.FromKind)
        ∷ Some (ModelFault.UnknownEntity Role.ToKind) ∷ Some (ModelFault.WrongKind Role.ToKind)
        ∷ Some (ModelFault.DoubleAlias 4) ∷ [] }
    ensures values { refused_next (
        value_of (codes "S") (Some (codes "w")) (codes "one")
        ∷ value_of (codes "S2") (Some (codes "v")) (codes "one")
        ∷ value_of (codes "V") (Some (codes "v")) (codes "one")
        ∷ value_of (codes "Q") (Some (codes "v")) (codes "one")
        ∷ value_of (codes "P") (Some (codes "v")) (codes "one")
        ∷ value_of (codes "S") (Some (codes "v")) (codes "two")
        ∷ value_of (codes "S") None (codes "v") ∷ [])
        ≡ None ∷ None ∷ None ∷ Some (ModelFault.UnknownEntity Role.Kind)
        ∷ Some (ModelFault.WrongKind Role.Kind) ∷ Some (ModelFault.DoubleAlias 11)
        ∷ Some (ModelFault.DoubleAlias 11) ∷ [] }
{}

/// Lines that create and destroy containers.
pub fn container_reasons()
    ensures created { refused_next (
        creates_at 1 (Some (codes "p3")) (codes "P") (codes "p2") (codes "rank 0")
        ∷ creates_at 1 (Some (codes "P")) (codes "0") (codes "/") (codes "rank 0")
        ∷ creates_at 1 (Some (codes "p0")) (codes "Q") (codes "p0") (codes "x")
        ∷ creates_at 1 (Some (codes "p3")) (codes "S") (codes "p9") (codes "x")
        ∷ creates_at 1 (Some (codes "p0")) (codes "P") (codes "p9") (codes "x")
        ∷ creates_at 1 (Some (codes "p2")) (codes "P") (codes "p0") (codes "x")
        ∷ creates_at 1 None (codes "P") (codes "p0") (codes "p1")
        ∷ creates_at 1 (Some (codes "/")) (codes "P") (codes "p0") (codes "x") ∷ [])
        ≡ None ∷ None ∷ Some (ModelFault.UnknownEntity Role.Kind) ∷ Some (ModelFault.WrongKind Role.Kind)
        ∷ Some (ModelFault.UnknownEntity Role.Holder) ∷ Some (ModelFault.DoubleAlias 8)
        ∷ Some (ModelFault.DoubleAlias 7) ∷ Some (ModelFault.DoubleAlias 0) ∷ [] }
    ensures destroyed { refused_next (
        destroys_at 30 (codes "p0") ∷ destroys_at 5 (codes "rank 1")
        ∷ destroys_at 1 (codes "p9") ∷ destroys_at 1 (codes "0") ∷ destroys_at 1 (codes "/")
        ∷ destroys_at 1 (codes "p2") ∷ destroys_at 40 (codes "rank 2")
        ∷ destroys_at 4 (codes "p1") ∷ destroys_at 29 (codes "p0") ∷ destroys_at 9 (codes "p0") ∷ [])
        ≡ None ∷ None ∷ Some (ModelFault.UnknownEntity Role.Name) ∷ Some (ModelFault.WrongKind Role.Name)
        ∷ Some (ModelFault.WrongKind Role.Name) ∷ Some (ModelFault.AfterDestroy 12)
        ∷ Some (ModelFault.AfterDestroy 12) ∷ Some (ModelFault.TimeBack 5) ∷ Some (ModelFault.TimeBack 30)
        ∷ Some (ModelFault.TimeBack 30) ∷ [] }
{}

/// State events and link events.
pub fn event_reasons()
    ensures states { refused_next (
        push_at 10 (codes "f") ∷ pop_at 10 ∷ entering_at EventName.PushState 5 (codes "S") (codes "p1")
        (codes "f")
        ∷ leaves_at EventName.ResetState 5 (codes "S") (codes "p1")
        ∷ entering_at EventName.SetState 0 (codes "S2") (codes "0") (codes "f")
        ∷ entering_at EventName.PushState 1 (codes "Q") (codes "p9") (codes "f")
        ∷ leaves_at EventName.PopState 1 (codes "V") (codes "p9")
        ∷ leaves_at EventName.ResetState 1 (codes "S") (codes "p9")
        ∷ entering_at EventName.SetState 1 (codes "S") (codes "p2") (codes "f")
        ∷ push_at 9 (codes "f") ∷ pop_at 9
        ∷ leaves_at EventName.PopState 4 (codes "S") (codes "p1")
        ∷ leaves_at EventName.PopState 29 (codes "S2") (codes "p0")
        ∷ leaves_at EventName.PopState 5 (codes "S") (codes "p1") ∷ [])
        ≡ None ∷ None ∷ None ∷ None ∷ None ∷ Some (ModelFault.UnknownEntity Role.Kind)
        ∷ Some (ModelFault.WrongKind Role.Kind) ∷ Some (ModelFault.UnknownEntity Role.Holder)
        ∷ Some (ModelFault.AfterDestroy 12) ∷ Some (ModelFault.TimeBack 10) ∷ Some (ModelFault.TimeBack 10)
        ∷ Some (ModelFault.TimeBack 5) ∷ Some (ModelFault.TimeBack 30) ∷ Some ModelFault.EmptyPop ∷ [] }
    ensures links { refused_next (
        sends_at 1 (codes "K") (codes "p2") (codes "k") 1 ∷ receives_at 0 (codes "Msg") (codes "/")
        (codes "k")
        ∷ sends_at 1 (codes "Q") (codes "p9") (codes "k") 1 ∷ receives_at 1 (codes "S") (codes "p9")
        (codes "k")
        ∷ sends_at 1 (codes "K") (codes "p9") (codes "k") 1
        ∷ receives_at 1 (codes "K") (codes "p9") (codes "k") ∷ happens_at 0 ∷ [])
        ≡ None ∷ None ∷ Some (ModelFault.UnknownEntity Role.Kind) ∷ Some (ModelFault.WrongKind Role.Kind)
        ∷ Some (ModelFault.UnknownEntity Role.From) ∷ Some (ModelFault.UnknownEntity Role.To) ∷ None ∷ [] }
{}

/// One more than may be there is refused, behind the reasons that come before.
pub fn limit_reasons()
    ensures last { map (λ what. full what (limit_of what - 1)) (What.Types ∷ What.Values ∷ What.Containers
        ∷ What.StateEvents ∷ What.Tracks ∷ What.Functions ∷ What.LinkEvents ∷ []) ≡ None ∷ None ∷ None ∷ None
        ∷ None ∷ None ∷ None ∷ [] }
    ensures types { full What.Types MAX_TYPES ≡ Some (ModelFault.TooMany What.Types) }
    ensures values { full What.Values MAX_VALUES ≡ Some (ModelFault.TooMany What.Values) }
    ensures containers { full What.Containers MAX_CONTAINERS ≡ Some (ModelFault.TooMany What.Containers) }
    ensures states { full What.StateEvents MAX_STATE_EVENTS ≡ Some (ModelFault.TooMany What.StateEvents) }
    ensures tracks { full What.Tracks MAX_TRACKS ≡ Some (ModelFault.TooMany What.Tracks) }
    ensures functions { full What.Functions MAX_FUNCTIONS ≡ Some (ModelFault.TooMany What.Functions) }
    ensures link_events { full What.LinkEvents MAX_LINK_EVENTS ≡ Some (ModelFault.TooMany What.LinkEvents) }
    ensures alias_first { new_reason What.Types (type_entities stage) (codes "S") MAX_TYPES
        ≡ Some (ModelFault.DoubleAlias 2) }
    ensures alias_new { new_reason What.Types (type_entities stage) (codes "T") MAX_TYPES
        ≡ Some (ModelFault.TooMany What.Types) }
    ensures links_first { map (λ line. link_reason MAX_LINK_EVENTS stage (line 13))
        (sends_at 1 (codes "K") (codes "p9") (codes "k") 1 ∷ sends_at 1 (codes "K") (codes "p0") (codes "k") 1
        ∷ []) ≡ Some (ModelFault.UnknownEntity Role.From) ∷ Some (ModelFault.TooMany What.LinkEvents) ∷ [] }
{}

/// What a state event meets on its track, in the order in which it is checked.
pub fn met_reasons()
    ensures open { met_reason (push_at 10 (codes "f") 13) open_track ≡ None }
    ensures destroyed { met_reason (pop_at 9 13) (record open_track {
      destruction = Some
          (destroys_at 8 (codes "p0") 12);
      open_calls = 0;
    }) ≡ Some (ModelFault.AfterDestroy 12) }
    ensures time_back { met_reason (pop_at 9 13) (record open_track { open_calls = 0 })
        ≡ Some (ModelFault.TimeBack 10) }
    ensures time_back_deep { met_reason (push_at 9 (codes "f") 13) (record open_track {
      open_calls
          = MAX_OPEN_CALLS;
    }) ≡ Some (ModelFault.TimeBack 10) }
    ensures empty_pop { met_reason (pop_at 10 13) (record open_track {
      open_calls = 0;
      states
          = MAX_STATE_EVENTS;
    }) ≡ Some ModelFault.EmptyPop }
    ensures deep { met_reason (push_at 10 (codes "f") 13) (record open_track {
      open_calls = MAX_OPEN_CALLS;
      states = MAX_STATE_EVENTS;
    }) ≡ Some ModelFault.Deep }
    ensures deepest { met_reason (push_at 10 (codes "f") 13) (record open_track {
      open_calls
          = MAX_OPEN_CALLS - 1;
    }) ≡ None }
    ensures deep_pop { met_reason (pop_at 10 13) (record open_track { open_calls = MAX_OPEN_CALLS })
        ≡ None }
    ensures states { met_reason (push_at 10 (codes "f") 13) (record open_track {
      states = MAX_STATE_EVENTS;
      tracks = MAX_TRACKS;
    }) ≡ Some (ModelFault.TooMany What.StateEvents) }
    ensures tracks { met_reason (push_at 10 (codes "f") 13) (record open_track {
      tracks = MAX_TRACKS;
      functions = MAX_FUNCTIONS;
    }) ≡ Some (ModelFault.TooMany What.Tracks) }
    ensures functions { met_reason (push_at 10 (codes "f") 13) (record open_track {
      tracks = MAX_TRACKS;
      is_new_track = false;
      functions = MAX_FUNCTIONS;
    }) ≡ Some (ModelFault.TooMany What.Functions) }
    ensures none_new { met_reason (push_at 10 (codes "f") 13) (record open_track {
      tracks = MAX_TRACKS;
      is_new_track = false;
      functions = MAX_FUNCTIONS;
      is_new_function = false;
    }) ≡ None }
{}

/// How many calls are open behind the events of a track.
pub fn open_examples()
    ensures { map open_behind ([] ∷ (EventName.PushState ∷ EventName.PushState ∷ EventName.PopState ∷ [])
        ∷ (EventName.SetState ∷ []) ∷ (EventName.PushState ∷ EventName.PushState ∷ EventName.SetState ∷ [])
        ∷ (EventName.SetState ∷ EventName.PushState ∷ EventName.PopState ∷ EventName.PopState ∷ [])
        ∷ (EventName.PushState ∷ EventName.ResetState ∷ []) ∷ (EventName.ResetState ∷ [])
        ∷ (EventName.SetState ∷ EventName.ResetState ∷ EventName.PushState ∷ [])
        ∷ replicate MAX_OPEN_CALLS EventName.PushState ∷ []) ≡ 0 ∷ 1 ∷ 1 ∷ 1 ∷ 0 ∷ 0 ∷ 0 ∷ 1 ∷ MAX_OPEN_CALLS
        ∷ [] }
{}
