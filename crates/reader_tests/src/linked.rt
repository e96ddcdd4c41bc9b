//! The text of a trace with two link types.
ghost use Rattle.std.specs.Prelude.{◌≡◌, ◌∷◌, [], IfOk};
ghost use Rattle.paje_print.specs.Examples.{of_two_link_types, received, sent, small_names, two_nested};

use crate::written::text_of;
use paje_print::write_trace;
use std::alloc::Global;
use std::test::Fail;
use trace_base::{
    Container, Event, LinkEvent, Memory, Name, Seq, TraceNames, TraceText, Track, TrackStream,
};

/// A list of two names.
fn two_names(alloc: Global, first: &[u8], second: &[u8]) -> Result<Seq<Name>, Memory>
    ensures { IfOk result (λ names. names ≡ first.now ∷ second.now ∷ []) }
{
    let mut names = Seq::new(alloc);
    names.push(Name::from_bytes(alloc, first)?)?;
    names.push(Name::from_bytes(alloc, second)?)?;
    Ok(names)
}

/// The root and a process.
fn containers(alloc: Global) -> Result<Seq<Container>, Memory>
    ensures { IfOk result (λ containers. containers ≡ small_names.containers) }
{
    let mut containers = Seq::new(alloc);
    containers.push(Container {
        name: Name::from_bytes(alloc, b"0")?,
        start: 0,
        end: 10,
    })?;
    containers.push(Container {
        name: Name::from_bytes(alloc, b"x")?,
        start: 2,
        end: 10,
    })?;
    Ok(containers)
}

fn names(alloc: Global) -> Result<TraceNames, Memory>
    ensures { IfOk result (λ names. names ≡ of_two_link_types.names) }
{
    let containers = containers(alloc)?;
    let mut kinds = Seq::new(alloc);
    kinds.push(Name::from_bytes(alloc, b"State")?)?;
    let link_kinds = two_names(alloc, b"Link", b"Put")?;
    let functions = two_names(alloc, b"main", b"f")?;
    let track = Track {
        container: 1,
        kind: 0,
    };
    Ok(TraceNames {
        end: 10,
        containers,
        kinds,
        link_kinds,
        tracks: Seq::from_slice(alloc, &[track])?,
        functions,
    })
}

/// A function calls another.
fn streams(alloc: Global) -> Result<Seq<TrackStream>, Memory>
    ensures { IfOk result (λ streams. streams ≡ two_nested ∷ []) }
{
    let mut events = Vec::new(alloc);
    events.push(Event::Enter(1, 3))?;
    events.push(Event::Enter(2, 4))?;
    events.push(Event::Leave(5))?;
    events.push(Event::Leave(7))?;
    let mut streams = Seq::new(alloc);
    streams.push(TrackStream {
        start: 2,
        end: 10,
        events: Seq::from_vec(events),
    })?;
    Ok(streams)
}

/// The process sends a message of this link type.
fn start(alloc: Global, kind: u32, size: u64) -> Result<LinkEvent, Memory>
    ensures { IfOk result (λ link. link ≡ record (sent 1 size) { kind = kind }) }
{
    Ok(LinkEvent {
        starts: true,
        kind,
        key: Name::from_bytes(alloc, b"k")?,
        container: 1,
        time: 3,
        size,
    })
}

/// The root receives it.
fn end(alloc: Global, kind: u32) -> Result<LinkEvent, Memory>
    ensures { IfOk result (λ link. link ≡ record (received 0 0) { kind = kind }) }
{
    Ok(LinkEvent {
        starts: false,
        kind,
        key: Name::from_bytes(alloc, b"k")?,
        container: 0,
        time: 7,
        size: 0,
    })
}

/// A message of each link type. The ends of the second stand between those of the first.
fn links(alloc: Global) -> Result<Seq<LinkEvent>, Memory>
    ensures { IfOk result (λ links. links ≡ of_two_link_types.links) }
{
    let mut links = Seq::new(alloc);
    links.push(start(alloc, 0, 100)?)?;
    links.push(start(alloc, 1, 8)?)?;
    links.push(end(alloc, 1)?)?;
    links.push(end(alloc, 0)?)?;
    Ok(links)
}

fn two_link_types(alloc: Global) -> Result<TraceText, Memory>
    ensures { IfOk result (λ trace. trace ≡ of_two_link_types) }
{
    let names = names(alloc)?;
    let tracks = streams(alloc)?;
    let links = links(alloc)?;
    Ok(TraceText {
        names,
        tracks,
        links,
    })
}

/// The lines behind the definitions, worked by hand.
const LINKED: &str = "\
0 P 0 \"P\"
1 s0 P \"State\"
2 l0 P P P \"Link\"
2 l1 P P P \"Put\"
3 0.000000002 c1 P 0 \"x\"
7 0.000000002 s0 c1
5 0.000000003 s0 c1 \"main\"
5 0.000000004 s0 c1 \"f\"
6 0.000000005 s0 c1
6 0.000000007 s0 c1
8 0.000000003 l0 0 m c1 \"k\" 100
8 0.000000003 l1 0 m c1 \"k\" 8
9 0.000000007 l1 0 m 0 \"k\"
9 0.000000007 l0 0 m 0 \"k\"
4 0.000000010 P c1
";

fn written(alloc: Global) -> Result<Seq<u8>, Memory> {
    let trace = two_link_types(alloc)?;
    let text = write_trace(alloc, &trace);
    drop(trace);
    text
}

#[test]
fn text_with_two_link_types(rt: HostRuntime) -> Result<(), Fail> {
    let text = written(rt.alloc())?;
    let mut lines = String::new(rt.alloc());
    for line in text_of(text.as_slice()).lines() {
        if !line.starts_with("%") {
            writeln!(lines, "{line}")?;
        }
    }
    assert_eq!(rt; lines.as_str(), LINKED);
    Ok(())
}
