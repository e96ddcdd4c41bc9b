//! Traces, and calls of a hall, that several modules use.
ghost use Rattle.std.specs.Prelude.{◌≡◌, ◌<◌, ◌++◌, [], ◌∷◌, Contains, IfOk, List, OnOk, codes, take, true};
ghost use Rattle.std.specs.Arc.{arc_value};
ghost use Rattle.trace_base.specs.Info.{IsLegalInfo};
ghost use Rattle.node_key.specs.Examples.{half, tenth, track_of_half};
ghost use Rattle.hall_history.specs.History.{tracks_of};
ghost use Rattle.hall_history.specs.Seat.{ExchangesStakes, IsAtRest};
ghost use Rattle.hall_tests.specs.OneTrack.{HasLoadAlone, HasOneTrack, OpensOneTrack};
ghost use Rattle.node_key.specs.Stakes.{HasStakes, IsOverStakes, stake};
ghost use Rattle.node_key.specs.Tree.{Tree};
ghost use Rattle.node_key.specs.declared.stake.Stake.{Stake};
ghost use Rattle.test_keys.specs.Examples.{track_of_lone_main};
ghost use Rattle.hall_trait.specs.Answers.{Closes};
ghost use Rattle.hall_trait.specs.Pin.{pin_view};
ghost use Rattle.hall_history.specs.Asks.{first_id};
ghost use Rattle.plain_hall.specs.PlainHall.{seat_of};

use hall_history::{Left, PassState, Published};
use hall_trait::{CloseAnswer, Hall, LoadPass, Pin};
use node_key::NodeKey;
use plain_hall::PlainHall;
use shard_core::Interned;
use std::alloc::Global;
use std::process::Abort;
use std::sync::{Arc, Wait};
use std::test::Fail;
use test_keys::{key_of_f, key_of_lone_main, key_of_lone_track, key_of_main, key_of_track};
use trace_base::{Container, Memory, MsgTable, Name, Seq, TraceInfo, TraceNames, Track};

/// The number of the node of this key, and whether it is new.
pub(crate) fn staked<R: Abort + Wait, H: Hall>(hall: &mut H, rt: &R, key: NodeKey) -> (u64, bool)
    requires { (t : Tree) × (kids : List Stake) × IsOverStakes t kids key
        × HasStakes (H.view hall.old).seat.stakes kids }
    ensures { (t : Tree) (kids : List Stake) → IsOverStakes t kids key
        → HasStakes (H.view hall.old).seat.stakes kids
        → ExchangesStakes (H.view hall.old).seat (H.view hall.new).seat kids (stake result.0 t ∷ []) }
{
    match hall.intern(rt, key) {
        Ok(interned) => match interned {
            Interned::Known(n) => (n, false),
            Interned::New(n) => (n, true),
        },
        Err(_) => panic!(rt; "refused"),
    }
}

/// The number of f, and whether it is new.
pub(crate) fn stake_f<R: Abort + Wait, H: Hall>(hall: &mut H, rt: &R) -> (u64, bool)
    ensures { ExchangesStakes (H.view hall.old).seat (H.view hall.new).seat [] (stake result.0 tenth ∷ []) }
{
    staked(hall, rt, key_of_f())
}

/// The number of main, and whether it is new.
pub(crate) fn stake_main<R: Abort + Wait>(
    hall: &mut PlainHall,
    rt: &R,
    f: u64,
    again: u64,
) -> (u64, bool)
    requires { HasStakes (seat_of hall.old).stakes (stake f tenth ∷ stake again tenth ∷ []) }
    ensures { ExchangesStakes (seat_of hall.old) (seat_of hall.new) (stake f tenth ∷ stake again tenth ∷ [])
        (stake result.0 half ∷ []) }
{
    staked(hall, rt, key_of_main(f, again))
}

/// The number of the track, and whether it is new.
pub(crate) fn stake_track<R: Abort + Wait>(hall: &mut PlainHall, rt: &R, main: u64) -> (u64, bool)
    requires { HasStakes (seat_of hall.old).stakes (stake main half ∷ []) }
    ensures { ExchangesStakes (seat_of hall.old) (seat_of hall.new) (stake main half ∷ [])
        (stake result.0 track_of_half ∷ []) }
{
    staked(hall, rt, key_of_track(main))
}

/// Interns the track, leaf by leaf.
pub(crate) fn build<R: Abort + Wait>(hall: &mut PlainHall, rt: &R) -> u64
    ensures { ExchangesStakes (seat_of hall.old) (seat_of hall.new) [] (stake result track_of_half ∷ []) }
{
    let (f, _) = stake_f(hall, rt);
    let (again, _) = stake_f(hall, rt);
    let (main, _) = stake_main(hall, rt, f, again);
    let (root, _) = stake_track(hall, rt, main);
    root
}

/// Interns the track on which main calls nothing.
pub(crate) fn build_lone<R: Abort + Wait>(hall: &mut PlainHall, rt: &R) -> u64
    ensures { ExchangesStakes (seat_of hall.old) (seat_of hall.new) []
        (stake result track_of_lone_main ∷ []) }
{
    let (main, _) = staked(hall, rt, key_of_lone_main());
    let (root, _) = staked(hall, rt, key_of_lone_track(main));
    root
}

/// Names of half a second, of nothing.
pub(crate) fn no_names(alloc: Global) -> TraceNames
    ensures { result ≡ record {
      end = 500000000;
      containers = [];
      kinds = [];
      link_kinds = [];
      tracks = [];
      functions = [];
    } }
{
    TraceNames {
        end: 500_000_000,
        containers: Seq::new(alloc),
        kinds: Seq::new(alloc),
        link_kinds: Seq::new(alloc),
        tracks: Seq::new(alloc),
        functions: Seq::new(alloc),
    }
}

/// What a trace of these names is opened with, without messages.
pub(crate) fn info_of(alloc: Global, names: TraceNames) -> Result<Arc<TraceInfo, Global>, Memory>
    ensures { IfOk result (λ info. arc_value info ≡ record {
      names = names;
      messages = record { messages = []; unmatched = 0 };
    }) }
{
    let messages = MsgTable {
        messages: Seq::new(alloc),
        unmatched: 0,
    };
    match Arc::new(alloc, TraceInfo { names, messages }) {
        Ok(info) => Ok(info),
        Err(_) => Err(Memory),
    }
}

/// A trace without tracks.
pub(crate) fn bare(alloc: Global) -> Result<Arc<TraceInfo, Global>, Memory>
    ensures { IfOk result (λ info. IsLegalInfo (arc_value info)) }
{
    info_of(alloc, no_names(alloc))
}

/// Adds a name to a list.
pub(crate) fn push_name(alloc: Global, list: &mut Seq<Name>, bytes: &[u8]) -> Result<(), Memory>
    ensures { OnOk result (list.new ≡ list.old ++ bytes.now ∷ []) }
{
    list.push(Name::from_bytes(alloc, bytes)?)
}

/// Adds a container of half a second to a list.
pub(crate) fn push_container(alloc: Global, list: &mut Seq<Container>) -> Result<(), Memory>
    ensures { OnOk result (list.new ≡ list.old ++ record { name = 48 ∷ []; start = 0; end = 500000000 } ∷ []) }
{
    let name = Name::from_bytes(alloc, b"0")?;
    list.push(Container {
        name,
        start: 0,
        end: 500_000_000,
    })
}

/// Adds one track of half a second, and the functions main and f.
pub(crate) fn add_track(alloc: Global, names: &mut TraceNames) -> Result<(), Memory>
    requires { names.old ≡ record {
      end = 500000000;
      containers = [];
      kinds = [];
      link_kinds = [];
      tracks = [];
      functions = [];
    } }
    ensures { OnOk result (names.new ≡ record {
      end = 500000000;
      containers = record { name = codes "0"; start = 0; end = 500000000 } ∷ [];
      kinds = codes "kind" ∷ [];
      link_kinds = [];
      tracks = record { container = 0; kind = 0 } ∷ [];
      functions = codes "main" ∷ codes "f" ∷ [];
    }) }
{
    push_container(alloc, &mut names.containers)?;
    push_name(alloc, &mut names.kinds, b"kind")?;
    names.tracks.push(Track {
        container: 0,
        kind: 0,
    })?;
    push_name(alloc, &mut names.functions, b"main")?;
    push_name(alloc, &mut names.functions, b"f")
}

/// A trace with one track of half a second, and the functions main and f.
pub(crate) fn one_track(alloc: Global) -> Result<Arc<TraceInfo, Global>, Memory>
    ensures legal { IfOk result (λ info. IsLegalInfo (arc_value info)) }
    ensures one { IfOk result (λ info. HasOneTrack (arc_value info)) }
{
    let mut names = no_names(alloc);
    add_track(alloc, &mut names)?;
    info_of(alloc, names)
}

/// Opens a trace of one track, which gets this id at this place.
pub(crate) fn open_one<R: Abort + Wait>(
    hall: &mut PlainHall,
    rt: &R,
    alloc: Global,
    id: u64,
    place: u64,
) -> Result<LoadPass, Fail>
    ensures { IfOk result (λ pass. OpensOneTrack (seat_of hall.old) (seat_of hall.new) pass) }
{
    let pass = hall.admit(rt, one_track(alloc)?)?;
    assert_eq!(rt; (pass.id(), pass.place()), (id, place));
    assert_eq!(rt; (pass.from(), pass.to()), (0, 1));
    assert_eq!(rt; pass.state(), PassState::Straight(0));
    Ok(pass)
}

/// Publishes the last track of a load, and ends the load or gives it up, at these places.
pub(crate) fn end_load<R: Abort + Wait>(
    hall: &mut PlainHall,
    rt: &R,
    pass: LoadPass,
    root: u64,
    places: (u64, u64),
    whole: bool,
)
    requires { HasLoadAlone (seat_of hall.old) pass root }
    ensures { IsAtRest (seat_of hall.new) }
{
    let mut pass = pass;
    assert_eq!(rt; hall.publish(rt, &mut pass, 0, root), places.0);
    if whole {
        assert_eq!(rt; hall.seal(rt, pass), places.1);
    } else {
        assert_eq!(rt; hall.abandon(rt, pass), places.1);
    }
}

/// Loads the trace of one track, on which main calls f twice, or gives its load up when the track is
/// published, and tells its id and the places of its three entries.
pub(crate) fn load<R: Abort + Wait>(
    hall: &mut PlainHall,
    rt: &R,
    alloc: Global,
    id: u64,
    places: (u64, u64, u64),
    whole: bool,
) -> Result<(), Fail>
    requires { IsAtRest (seat_of hall.old) }
    ensures { OnOk result (IsAtRest (seat_of hall.new)) }
{
    let pass = open_one(hall, rt, alloc, id, places.0)?;
    let root = build(hall, rt);
    end_load(hall, rt, pass, root, (places.1, places.2), whole);
    Ok(())
}

/// Loads the trace of one track, on which main calls nothing, and tells its id and the places of its three
/// entries.
pub(crate) fn load_lone<R: Abort + Wait>(
    hall: &mut PlainHall,
    rt: &R,
    alloc: Global,
    id: u64,
    places: (u64, u64, u64),
) -> Result<(), Fail>
    requires { IsAtRest (seat_of hall.old) }
    ensures { OnOk result (IsAtRest (seat_of hall.new)) }
{
    let pass = open_one(hall, rt, alloc, id, places.0)?;
    let root = build_lone(hall, rt);
    end_load(hall, rt, pass, root, (places.1, places.2), true);
    Ok(())
}

/// Opens a trace without tracks, and gives it up.
pub(crate) fn open_and_drop<R: Abort + Wait>(
    hall: &mut PlainHall,
    rt: &R,
    alloc: Global,
    id: u64,
    place: u64,
    end: u64,
) -> Result<(), Fail>
    requires { IsAtRest (seat_of hall.old) }
    ensures { OnOk result (IsAtRest (seat_of hall.new)) }
{
    let pass = hall.admit(rt, bare(alloc)?)?;
    assert_eq!(rt; (pass.id(), pass.place()), (id, place));
    assert_eq!(rt; hall.abandon(rt, pass), end);
    Ok(())
}

/// The pin is of these traces, each of one track, as of this place.
pub(crate) fn see_pin<R: Abort>(rt: &R, pin: &Pin, ids: (u64, u64), place: u64)
    ensures first { pin.now.first.tracks ≡ 1 }
    ensures second { pin.now.second.tracks ≡ 1 }
{
    assert_eq!(rt; pin.place(), place);
    assert_eq!(rt; (pin.id(0), pin.id(1)), ids);
    let (first, second) = (pin.brief(0), pin.brief(1));
    assert_eq!(rt; first.tracks, 1);
    assert_eq!(rt; second.tracks, 1);
}

/// The first track of its first trace has this root.
pub(crate) fn see_root<R: Abort + Wait>(hall: &mut PlainHall, rt: &R, pin: &Pin, root: u64)
    requires has { Contains (seat_of hall.old).pins (pin_view pin.now) }
    requires within { 0 < tracks_of (take pin.now.place (seat_of hall.old).seen) (first_id pin.now.ids) }
    ensures { seat_of hall.new ≡ seat_of hall.old }
{
    match hall.published(rt, pin, 0, 0) {
        Published::Root { start, root: n } => {
            assert_eq!(rt; (start, n), (0, root));
            assert!(rt; hall.read(rt, n) == key_of_track(12));
        }
        Published::NotYet => panic!(rt; "not yet"),
    }
}

/// So many traces are open, and their trees need so many nodes.
pub(crate) fn is_left<R: Abort>(hall: &PlainHall, rt: &R, traces: u64, nodes: u64)
    requires { (seat_of hall.now).stakes ≡ [] }
{
    assert_eq!(rt; hall.left(), Left { traces, nodes });
}

/// Opens and seals a trace without tracks, which gets this id, and is sealed at this place.
pub(crate) fn open_and_seal<R: Abort + Wait>(
    hall: &mut PlainHall,
    rt: &R,
    info: Arc<TraceInfo, Global>,
    id: u64,
    place: u64,
) -> Result<(), Fail>
    requires { IsLegalInfo (arc_value info) }
    ensures { IsAtRest (seat_of hall.old) → OnOk result (IsAtRest (seat_of hall.new)) }
{
    let pass = hall.admit(rt, info)?;
    assert_eq!(rt; pass.id(), id);
    assert_eq!(rt; pass.state(), PassState::Whole);
    assert_eq!(rt; hall.seal(rt, pass), place);
    Ok(())
}

/// A close is answered so.
pub(crate) fn close_tells<R: Abort + Wait>(
    hall: &mut PlainHall,
    rt: &R,
    id: u64,
    answer: CloseAnswer,
)
    ensures { Closes true (seat_of hall.old) (seat_of hall.new) id answer }
{
    let told = hall.close(rt, id);
    assert_eq!(rt; told, answer);
}
