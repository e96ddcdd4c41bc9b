ghost use Rattle.std.specs.Prelude.{◌≡◌, ℕ, ◌≤◌, ◌++◌, [], ◌∷◌, IfOk, Ok, OnOk, length};
ghost use Rattle.std.specs.Arc.{arc_value};
ghost use Rattle.trace_base.specs.Info.{IsLegalInfo};
ghost use Rattle.trace_base.specs.LegalExamples.{lasting, one_process, with_message};
ghost use Rattle.trace_base.specs.declared.limits.TheConstants.{MAX_FUNCTIONS};
ghost use Rattle.registry_core.specs.Asking.{AreUsed, AsksIn, after_unpin};
ghost use Rattle.registry_core.specs.Closing.{ClosesIn};
ghost use Rattle.registry_core.specs.Examples.{HasLesserIds, KeepsTraces, both, closed_with, ended_trace};
ghost use Rattle.registry_core.specs.Examples.{in_use_at, no_tracks, no_tracks_but, only_first, sealed_trace};
ghost use Rattle.registry_core.specs.Examples.{two_tracks, with_none, with_one};
ghost use Rattle.registry_core.specs.Loading.{AdmitsIn, with_opened};
ghost use Rattle.registry_core.specs.Registry.{after_entry, new_registry};
ghost use Rattle.registry_core.specs.declared.answers.RegAsk.TheVariants as ask;
ghost use Rattle.registry_core.specs.declared.answers.RegClose.TheVariants as close;

use hall_history::{AskIds, Brief, ListRow, Published};
use registry_core::{Opened, RegAsk, RegClose, RegEnd, RegFault, RegUnpin, Registry, Roots};
use std::alloc::Global;
use std::process::Abort;
use std::sync::Arc;
use std::test::Fail;
use trace_base::{
    Container, MAX_PLACES, Memory, Message, MsgTable, Name, Seq, TraceInfo, TraceNames, Track,
};

// Adds a name to a list.
fn push_name(alloc: Global, list: &mut Seq<Name>, bytes: &[u8]) -> Result<(), Memory>
    ensures { OnOk result (list.new ≡ list.old ++ bytes.now ∷ []) }
{
    list.push(Name::from_bytes(alloc, bytes)?)
}

// Adds a container that begins then.
fn push_container(alloc: Global, list: &mut Seq<Container>, start: u64) -> Result<(), Memory>
    ensures { OnOk result (list.new ≡ list.old ++ lasting start 10 ∷ []) }
{
    let name = Name::from_bytes(alloc, b"x")?;
    list.push(Container {
        name,
        start,
        end: 10,
    })
}

// Adds the root and a process, a kind and a message.
fn fill(alloc: Global, info: &mut TraceInfo) -> Result<(), Memory>
    requires { info.old ≡ record {
      names = record {
        end = 10;
        containers = [];
        kinds = [];
        link_kinds = [];
        tracks = info.old.names.tracks;
        functions = info.old.names.functions;
      };
      messages = record { messages = []; unmatched = 0 };
    } }
    ensures { OnOk result (info.new ≡ with_message (record one_process {
      tracks = info.old.names.tracks;
      functions = info.old.names.functions;
    })) }
{
    push_container(alloc, &mut info.names.containers, 0)?;
    push_container(alloc, &mut info.names.containers, 2)?;
    push_name(alloc, &mut info.names.kinds, b"State")?;
    push_name(alloc, &mut info.names.link_kinds, b"Link")?;
    info.messages.messages.push(Message {
        from: 1,
        to: 0,
        send: 5,
        receive: 7,
        size: 100,
    })
}

// The root and a process, with these tracks and functions, and one message.
fn info_of(
    alloc: Global,
    tracks: Seq<Track>,
    functions: Seq<Name>,
) -> Result<Arc<TraceInfo, Global>, Memory>
    ensures { IfOk result (λ info. arc_value info ≡ with_message (record one_process {
      tracks = tracks;
      functions = functions;
    })) }
{
    let names = TraceNames {
        end: 10,
        containers: Seq::new(alloc),
        kinds: Seq::new(alloc),
        link_kinds: Seq::new(alloc),
        tracks,
        functions,
    };
    let messages = MsgTable {
        messages: Seq::new(alloc),
        unmatched: 0,
    };
    let mut info = TraceInfo { names, messages };
    fill(alloc, &mut info)?;
    match Arc::new(alloc, info) {
        Ok(info) => Ok(info),
        Err(_) => Err(Memory),
    }
}

// A list of two names.
fn two_names(alloc: Global, first: &[u8], second: &[u8]) -> Result<Seq<Name>, Memory>
    ensures { IfOk result (λ names. names ≡ first.now ∷ second.now ∷ []) }
{
    let mut names = Seq::new(alloc);
    push_name(alloc, &mut names, first)?;
    push_name(alloc, &mut names, second)?;
    Ok(names)
}

// A list of one name.
fn one_name(alloc: Global, name: &[u8]) -> Result<Seq<Name>, Memory>
    ensures { IfOk result (λ names. names ≡ name.now ∷ []) }
{
    let mut names = Seq::new(alloc);
    push_name(alloc, &mut names, name)?;
    Ok(names)
}

// The functions main and f.
fn main_and_f(alloc: Global) -> Result<Seq<Name>, Memory>
    ensures { IfOk result (λ names. names ≡ one_process.functions) }
{
    two_names(alloc, b"main", b"f")
}

// A trace without tracks.
fn without_tracks(alloc: Global) -> Result<Arc<TraceInfo, Global>, Memory>
    ensures { IfOk result (λ info. arc_value info ≡ no_tracks) }
{
    let functions = main_and_f(alloc)?;
    info_of(alloc, Seq::new(alloc), functions)
}

// A trace with two tracks.
fn of_two_tracks(alloc: Global) -> Result<Arc<TraceInfo, Global>, Memory>
    ensures { IfOk result (λ info. arc_value info ≡ two_tracks) }
{
    let functions = main_and_f(alloc)?;
    let tracks = Seq::from_slice(
        alloc,
        &[
            Track {
                container: 0,
                kind: 0,
            },
            Track {
                container: 1,
                kind: 0,
            },
        ],
    )?;
    info_of(alloc, tracks, functions)
}

// Opens a trace.
fn admit<R: Abort>(registry: &mut Registry, rt: &R, info: Arc<TraceInfo, Global>) -> Opened
    requires { IsLegalInfo (arc_value info) }
    ensures { AdmitsIn registry.old (arc_value info) (Ok result) registry.new }
{
    match registry.admit(info) {
        Ok(opened) => opened,
        Err(_) => panic!(rt; "not opened"),
    }
}

// Asks for traces that are open.
fn pin<R: Abort>(registry: &mut Registry, rt: &R, ids: AskIds, place: u64)
    ensures { (p : ℕ) × AsksIn registry.old ids (ask.Pinned p) registry.new }
{
    match registry.ask(ids) {
        RegAsk::Pinned(at) => assert_eq!(rt; at, place),
        _ => panic!(rt; "not pinned"),
    }
}

// Asks for a trace that isn't open.
fn ask_in_vain<R: Abort>(registry: &mut Registry, rt: &R, id: u64, next: u64, place: u64)
    ensures { registry.new ≡ after_entry registry.old }
{
    match registry.ask(AskIds::One(id)) {
        RegAsk::Unknown {
            id: told,
            next: after,
            place: at,
        } => assert_eq!(rt; (told, after, at), (id, next, place)),
        _ => panic!(rt; "not unknown"),
    }
}

// Closes a trace that is loading.
fn close_early<R: Abort>(registry: &mut Registry, rt: &R, id: u64, place: u64)
    ensures { registry.new ≡ after_entry registry.old }
{
    match registry.close(id) {
        RegClose::Loading(at) => assert_eq!(rt; at, place),
        _ => panic!(rt; "not loading"),
    }
}

// Closes a trace that isn't open.
fn close_in_vain<R: Abort>(registry: &mut Registry, rt: &R, id: u64, next: u64, place: u64)
    ensures { registry.new ≡ after_entry registry.old }
{
    match registry.close(id) {
        RegClose::Unknown {
            next: after,
            place: at,
        } => assert_eq!(rt; (after, at), (next, place)),
        _ => panic!(rt; "not unknown"),
    }
}

// Closes a trace that is in use.
fn close_in_use<R: Abort>(registry: &mut Registry, rt: &R, id: u64, place: u64)
    ensures { (p : ℕ) × ClosesIn registry.old id (close.Kept p) registry.new }
{
    match registry.close(id) {
        RegClose::Kept(at) => assert_eq!(rt; at, place),
        _ => panic!(rt; "not kept"),
    }
}

// The open traces have these rows.
fn list<R: Abort>(registry: &mut Registry, rt: &R, place: u64, rows: &[ListRow]) -> Result<(), Fail>
    ensures { OnOk result (registry.new ≡ after_entry registry.old) }
{
    let listing = registry.list()?;
    assert_eq!(rt; listing.place, place);
    assert_eq!(rt; listing.rows.as_slice(), rows);
    Ok(())
}

// The roots are these; the last comes out first.
fn are_roots<R: Abort>(roots: Roots, rt: &R, wanted: &[u64]) {
    let mut roots = roots;
    for root in wanted.iter().rev() {
        assert_eq!(rt; roots.pop(), Some(*root));
    }
    assert_eq!(rt; roots.pop(), None);
}

// Opens a trace of two tracks, publishes its first track, and asks for it.
fn load_first<R: Abort>(registry: &mut Registry, rt: &R, alloc: Global) -> Result<(), Fail>
    requires { registry.old ≡ new_registry 0 1 }
    ensures { OnOk result (registry.new ≡ in_use_at 3) }
{
    let opened = admit(registry, rt, of_two_tracks(alloc)?);
    assert_eq!(rt; (opened.id, opened.place), (1, 1));
    assert_eq!(rt; registry.publish(1, 0, 0, 40), 2);
    pin(registry, rt, AskIds::One(1), 3);
    Ok(())
}

// What is told of it then.
fn tell_first<R: Abort>(registry: &Registry, rt: &R)
    requires { registry.now ≡ in_use_at 3 }
{
    assert_eq!(rt;
        registry.published(1, 3, 0),
        Published::Root { start: 0, root: 40 }
    );
    assert_eq!(rt; registry.published(1, 1, 0), Published::NotYet);
    assert_eq!(rt; registry.published(1, 3, 1), Published::NotYet);
    assert_eq!(rt; registry.brief(1), Brief { tracks: 2 });
    match registry.info(1) {
        Ok(info) => assert_eq!(rt; info.names.end, 10),
        Err(_) => panic!(rt; "no info"),
    }
}

const ONE_OF_TWO: ListRow = ListRow {
    id: 1,
    tracks: 2,
    published: 1,
    loading: true,
};

// Three questions while it is loading.
fn questions<R: Abort>(registry: &mut Registry, rt: &R) -> Result<(), Fail>
    requires { registry.old ≡ in_use_at 3 }
    ensures { OnOk result (registry.new ≡ in_use_at 6) }
{
    ask_in_vain(registry, rt, 9, 2, 4);
    close_early(registry, rt, 1, 5);
    list(registry, rt, 6, &[ONE_OF_TWO])
}

// Publishes its second track, and ends its load.
fn load_second<R: Abort>(registry: &mut Registry, rt: &R)
    requires { registry.old ≡ in_use_at 6 }
    ensures { registry.new ≡ with_one 8 0 (sealed_trace 1 both) }
{
    assert_eq!(rt; registry.publish(1, 1, 2, 41), 7);
    assert_eq!(rt; registry.published(1, 6, 1), Published::NotYet);
    assert_eq!(rt;
        registry.published(1, 7, 1),
        Published::Root { start: 2, root: 41 }
    );
    assert_eq!(rt; registry.seal(1), 8);
}

// Closes it while two queries use it.
fn close_for_two<R: Abort>(registry: &mut Registry, rt: &R)
    requires { registry.old ≡ with_one 8 0 (sealed_trace 1 both) }
    ensures { registry.new ≡ closed_with 2 }
{
    pin(registry, rt, AskIds::One(1), 9);
    close_in_use(registry, rt, 1, 10);
}

// The first of two users gives it back, and it is kept.
fn give_back_first<R: Abort>(registry: &mut Registry, rt: &R)
    requires { registry.old ≡ closed_with 2 }
    ensures { registry.new ≡ closed_with 1 }
{
    let RegUnpin { first, second } = registry.unpin(AskIds::One(1));
    assert!(rt; first.is_none() && second.is_none());
    assert_eq!(rt;
        registry.published(1, 10, 1),
        Published::Root { start: 2, root: 41 }
    );
}

// Those who used it give it back, and it is gone.
fn give_back<R: Abort>(registry: &mut Registry, rt: &R, ids: AskIds)
    requires { AreUsed registry.old ids }
    ensures { registry.new ≡ after_unpin registry.old ids }
{
    let RegUnpin { first, second } = registry.unpin(ids);
    assert!(rt; second.is_none());
    match first {
        Some(roots) => are_roots(roots, rt, &[40, 41]),
        None => panic!(rt; "no roots"),
    }
}

#[test]
fn the_last_places(rt: HostRuntime) -> Result<(), Fail> {
    let alloc = rt.alloc();
    let mut registry = Registry::starting_at(alloc, MAX_PLACES - 1, 1)?;
    assert_eq!(rt;
        registry.admit(without_tracks(alloc)?),
        Err(RegFault::Spent(4_611_686_018_427_387_903))
    );
    ask_in_vain(&mut registry, &rt, 9, 1, 4_611_686_018_427_387_904);
    let all = 4_611_686_018_427_387_904;
    assert_eq!(rt; registry.ask(AskIds::One(9)), RegAsk::Spent(all));
    match registry.close(9) {
        RegClose::Spent(places) => assert_eq!(rt; places, all),
        _ => panic!(rt; "closed"),
    }
    match registry.list() {
        Ok(_) => panic!(rt; "listed"),
        Err(fault) => assert_eq!(rt; fault, RegFault::Spent(all)),
    }
    assert_eq!(rt;
        registry.admit(without_tracks(alloc)?),
        Err(RegFault::Spent(all))
    );
    Ok(())
}

#[test]
fn a_load_beside_a_query(rt: HostRuntime) -> Result<(), Fail> {
    let mut registry = Registry::starting_at(rt.alloc(), 0, 1)?;
    load_first(&mut registry, &rt, rt.alloc())?;
    tell_first(&registry, &rt);
    questions(&mut registry, &rt)?;
    load_second(&mut registry, &rt);
    Ok(())
}

#[test]
fn a_close_with_two_users(rt: HostRuntime) -> Result<(), Fail> {
    let mut registry = Registry::starting_at(rt.alloc(), 0, 1)?;
    load_first(&mut registry, &rt, rt.alloc())?;
    questions(&mut registry, &rt)?;
    load_second(&mut registry, &rt);
    close_for_two(&mut registry, &rt);
    give_back_first(&mut registry, &rt);
    give_back(&mut registry, &rt, AskIds::One(1));
    ask_in_vain(&mut registry, &rt, 1, 2, 11);
    close_in_vain(&mut registry, &rt, 1, 2, 12);
    Ok(())
}

#[test]
fn two_users_go_at_once(rt: HostRuntime) -> Result<(), Fail> {
    let mut registry = Registry::starting_at(rt.alloc(), 0, 1)?;
    load_first(&mut registry, &rt, rt.alloc())?;
    questions(&mut registry, &rt)?;
    load_second(&mut registry, &rt);
    close_for_two(&mut registry, &rt);
    ask_in_vain(&mut registry, &rt, 1, 2, 11);
    give_back(&mut registry, &rt, AskIds::Two(1, 1));
    list(&mut registry, &rt, 12, &[])
}

// Gives up the load while a query uses the trace.
fn give_up_in_use<R: Abort>(registry: &mut Registry, rt: &R)
    requires { registry.old ≡ in_use_at 3 }
    ensures { registry.new ≡ with_one 4 0 (ended_trace 1 only_first) }
{
    match registry.abandon(1) {
        RegEnd::Kept(place) => assert_eq!(rt; place, 4),
        RegEnd::Ended(_, _) => panic!(rt; "not kept"),
    }
}

// The query reads it still and gives it back, and its one root comes free.
fn give_back_last<R: Abort>(registry: &mut Registry, rt: &R)
    requires { registry.old ≡ with_one 4 0 (ended_trace 1 only_first) }
    ensures { registry.new ≡ with_none 4 }
{
    assert_eq!(rt;
        registry.published(1, 3, 0),
        Published::Root { start: 0, root: 40 }
    );
    let RegUnpin { first, second } = registry.unpin(AskIds::One(1));
    assert!(rt; second.is_none());
    match first {
        Some(roots) => are_roots(roots, rt, &[40]),
        None => panic!(rt; "no roots"),
    }
}

// Opens another trace, publishes its second track, and gives its load up, which nobody uses.
fn give_up_unused<R: Abort>(registry: &mut Registry, rt: &R, alloc: Global) -> Result<(), Fail>
    requires { registry.old ≡ with_none 4 }
{
    let opened = admit(registry, rt, of_two_tracks(alloc)?);
    assert_eq!(rt; (opened.id, opened.place), (2, 5));
    assert_eq!(rt; registry.publish(2, 1, 2, 40), 6);
    match registry.abandon(2) {
        RegEnd::Ended(place, roots) => {
            assert_eq!(rt; place, 7);
            are_roots(roots, rt, &[40]);
        }
        RegEnd::Kept(_) => panic!(rt; "kept"),
    }
    Ok(())
}

#[test]
fn loads_that_are_given_up(rt: HostRuntime) -> Result<(), Fail> {
    let mut registry = Registry::starting_at(rt.alloc(), 0, 1)?;
    load_first(&mut registry, &rt, rt.alloc())?;
    give_up_in_use(&mut registry, &rt);
    give_back_last(&mut registry, &rt);
    give_up_unused(&mut registry, &rt, rt.alloc())
}

// Opens a trace without tracks, and ends its load.
fn load_nothing<R: Abort>(
    registry: &mut Registry,
    rt: &R,
    info: Arc<TraceInfo, Global>,
    id: u64,
    places: (u64, u64),
)
    requires info { arc_value info ≡ no_tracks }
    requires lesser { HasLesserIds registry.old }
    ensures { HasLesserIds registry.new }
{
    let opened = admit(registry, rt, info);
    assert_eq!(rt; (opened.id, opened.place), (id, places.0));
    assert_eq!(rt; registry.seal(opened.id), places.1);
}

// Tries to open a trace while the most are open.
fn admit_in_vain<R: Abort>(
    registry: &mut Registry,
    rt: &R,
    info: Arc<TraceInfo, Global>,
    place: u64,
)
    requires { arc_value info ≡ no_tracks }
    ensures { registry.new ≡ after_entry registry.old }
{
    match registry.admit(info) {
        Err(RegFault::Full(at)) => assert_eq!(rt; at, place),
        _ => panic!(rt; "not full"),
    }
}

// Closes a trace without tracks that nobody uses.
fn close_unused<R: Abort>(registry: &mut Registry, rt: &R, id: u64, place: u64)
    requires { HasLesserIds registry.old }
    ensures { HasLesserIds registry.new }
{
    match registry.close(id) {
        RegClose::Ended(at, roots) => {
            assert_eq!(rt; at, place);
            are_roots(roots, rt, &[]);
        }
        _ => panic!(rt; "not ended"),
    }
}

// Opens the most traces, and one more in vain until one is closed.
fn open_most<R: Abort>(
    registry: &mut Registry,
    rt: &R,
    info: Arc<TraceInfo, Global>,
) -> Result<(), Fail>
    requires info { arc_value info ≡ no_tracks }
    requires empty { registry.old ≡ new_registry 0 1 }
{
    for k in 0..1024 {
        load_nothing(registry, rt, info.clone()?, k + 1, (2 * k + 1, 2 * k + 2));
    }
    admit_in_vain(registry, rt, info.clone()?, 2049);
    close_unused(registry, rt, 7, 2050);
    load_nothing(registry, rt, info, 1025, (2051, 2052));
    let listing = registry.list()?;
    assert_eq!(rt; (listing.place, listing.rows.len()), (2053, 1024));
    Ok(())
}

#[test]
fn the_open_traces_are_few(rt: HostRuntime) -> Result<(), Fail> {
    let info = without_tracks(rt.alloc())?;
    let mut registry = Registry::starting_at(rt.alloc(), 0, 1)?;
    open_most(&mut registry, &rt, info)
}

// Opens a trace with these functions.
fn open_with<R: Abort>(
    registry: &mut Registry,
    rt: &R,
    alloc: Global,
    id: u64,
    functions: Seq<Name>,
) -> Result<(), Fail>
    requires { length functions ≤ MAX_FUNCTIONS }
    ensures { OnOk result (registry.new ≡ with_opened registry.old (no_tracks_but functions)) }
{
    let opened = admit(registry, rt, info_of(alloc, Seq::new(alloc), functions)?);
    assert_eq!(rt; (opened.id, opened.place), (id, id));
    Ok(())
}

// Opens two traces with the same functions, and one each with them in another order, with one fewer, and with
// one that is spelled otherwise.
fn open_five<R: Abort>(registry: &mut Registry, rt: &R, alloc: Global) -> Result<(), Fail>
    requires { registry.old ≡ new_registry 0 1 }
    ensures { OnOk result (KeepsTraces registry.new (1 ∷ 2 ∷ 3 ∷ 4 ∷ 5 ∷ [])) }
{
    open_with(registry, rt, alloc, 1, two_names(alloc, b"main", b"f")?)?;
    open_with(registry, rt, alloc, 2, two_names(alloc, b"main", b"f")?)?;
    open_with(registry, rt, alloc, 3, two_names(alloc, b"f", b"main")?)?;
    open_with(registry, rt, alloc, 4, one_name(alloc, b"main")?)?;
    open_with(registry, rt, alloc, 5, two_names(alloc, b"main", b"g")?)?;
    Ok(())
}

// Which of them have the same functions.
fn compare<R: Abort>(registry: &Registry, rt: &R)
    requires { KeepsTraces registry.now (1 ∷ 2 ∷ 3 ∷ 4 ∷ 5 ∷ []) }
{
    assert!(rt; registry.same_names(AskIds::One(1)));
    assert!(rt; registry.same_names(AskIds::Two(1, 2)));
    assert!(rt; registry.same_names(AskIds::Two(3, 3)));
    assert!(rt; !registry.same_names(AskIds::Two(1, 3)));
    assert!(rt; !registry.same_names(AskIds::Two(1, 4)));
    assert!(rt; !registry.same_names(AskIds::Two(4, 1)));
    assert!(rt; !registry.same_names(AskIds::Two(1, 5)));
}

#[test]
fn names_are_compared(rt: HostRuntime) -> Result<(), Fail> {
    let mut registry = Registry::starting_at(rt.alloc(), 0, 1)?;
    open_five(&mut registry, &rt, rt.alloc())?;
    compare(&registry, &rt);
    Ok(())
}

/// Each fault and its text.
const TEXTS: [(RegFault, &str); 3] = [
    (RegFault::Memory, "out of memory"),
    (
        RegFault::Spent(MAX_PLACES),
        "number 4611686018427387904 is used up",
    ),
    (
        RegFault::Full(2_049),
        "too many traces are open at place 2049",
    ),
];

#[test]
fn texts_of_faults(rt: HostRuntime) -> Result<(), Fail> {
    for (fault, text) in TEXTS {
        let told = format!(in rt.alloc(); "{fault}")?;
        assert_eq!(rt; told.as_str(), text);
    }
    Ok(())
}
