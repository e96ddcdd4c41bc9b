//! What no clause says: that calls find memory; and values that were computed by hand, or by another program.
ghost use Rattle.std.specs.Prelude.{◌≤◌};

use crate::written::{add_links, add_names, add_streams, text_of};
use paje_print::{generate, generated_traces_are_canonical, write_trace};
use std::alloc::Global;
use std::test::Fail;
use trace_base::TraceText;

/// Adds the end of a trace, how many containers, tracks and link events it has, the names of its functions,
/// its first three tracks and its link events.
fn add_parts(out: &mut String, trace: &TraceText) -> Result<(), Fail> {
    let names = &trace.names;
    let (containers, tracks, links) = (
        names.containers.len(),
        trace.tracks.len(),
        trace.links.len(),
    );
    writeln!(out, "end {} with {containers} {tracks} {links}", names.end)?;
    add_names(out, "function", names.functions.as_slice())?;
    if let Some(first) = trace.tracks.as_slice().get(..3) {
        add_streams(out, first)?;
    }
    add_links(out, trace.links.as_slice())
}

fn add_generated(out: &mut String, alloc: Global, bundles: u32) -> Result<(), Fail> {
    let trace = generate(alloc, 0, 4 * bundles.min(4))?;
    let added = add_parts(out, &trace);
    drop(trace);
    added
}

/// No bundle; one; two, with a message; three; four, with two messages. The third calls kernel 4, since the
/// value behind three steps from 0 is 11166244414315200793, and the fourth kernel 3, since that behind four is
/// 7401132627792533940.
const GENERATED: &str = "\
end 1000 with 65 128 0
stream 0 1000: []
stream 0 1000: []
stream 0 1000: []
end 3200 with 65 128 0
function work
function kernel 0
stream 0 3200: [Enter(1, 1000), Enter(2, 1100), Leave(2100), Leave(2200)]
stream 0 3200: []
stream 0 3200: []
end 3200 with 65 128 2
function work
function kernel 0
stream 0 3200: [Enter(1, 1000), Enter(2, 1100), Leave(2100), Leave(2200)]
stream 0 3200: [Enter(1, 1000), Enter(2, 1100), Leave(2100), Leave(2200)]
stream 0 3200: []
send 0 1 1 1000 8
receive 0 1 2 2200 0
end 7200 with 65 128 2
function work
function kernel 0
function kernel 4
stream 0 7200: [Enter(1, 1000), Enter(2, 1100), Leave(2100), Leave(2200)]
stream 0 7200: [Enter(1, 1000), Enter(2, 1100), Leave(2100), Leave(2200)]
stream 0 7200: [Enter(1, 1000), Enter(3, 1100), Leave(6100), Leave(6200)]
send 0 1 1 1000 8
receive 0 1 2 2200 0
end 7200 with 65 128 4
function work
function kernel 0
function kernel 4
function kernel 3
stream 0 7200: [Enter(1, 1000), Enter(2, 1100), Leave(2100), Leave(2200)]
stream 0 7200: [Enter(1, 1000), Enter(2, 1100), Leave(2100), Leave(2200)]
stream 0 7200: [Enter(1, 1000), Enter(3, 1100), Leave(6100), Leave(6200)]
send 0 1 1 1000 8
receive 0 1 2 2200 0
send 0 3 2 1000 32
receive 0 3 3 5200 0
";

#[test]
fn generated_traces(rt: HostRuntime) -> Result<(), Fail> {
    let mut out = String::new(rt.alloc());
    for bundles in 0..5u32 {
        add_generated(&mut out, rt.alloc(), bundles)?;
    }
    assert_eq!(rt; out.as_str(), GENERATED);
    Ok(())
}

/// Adds the length of a text, its first line, and its lines that push or pop a state or are an end of a
/// message.
fn add_lines(out: &mut String, text: &str) -> Result<(), Fail> {
    writeln!(out, "{} {:?}", text.len(), text.lines().next())?;
    for line in text.lines() {
        if line.starts_with("5 ")
            || line.starts_with("6 ")
            || line.starts_with("8 ")
            || line.starts_with("9 ")
        {
            writeln!(out, "{line}")?;
        }
    }
    Ok(())
}

/// Adds this of the text of a generated trace.
fn add_written(out: &mut String, alloc: Global, size: u32) -> Result<(), Fail>
    requires { size ≤ 100 }
{
    generated_traces_are_canonical();
    let trace = generate(alloc, 0, size)?;
    let text = write_trace(alloc, &trace);
    drop(trace);
    add_lines(out, text_of(text?.as_slice()))
}

/// No bundle; and two, where on both tracks of the first container `work` calls a kernel, and one bundle
/// sends the other a message. These lines are those that another program writes for the same trace. Then four,
/// where the tracks of the second container have calls of two more kernels, and its message is worked by hand.
const WRITTEN: &str = "\
7096 Some(\"%EventDef PajeDefineContainerType 0\")
7350 Some(\"%EventDef PajeDefineContainerType 0\")
5 0.000001000 s0 c1 \"work\"
5 0.000001100 s0 c1 \"kernel 0\"
6 0.000002100 s0 c1
6 0.000002200 s0 c1
5 0.000001000 s1 c1 \"work\"
5 0.000001100 s1 c1 \"kernel 0\"
6 0.000002100 s1 c1
6 0.000002200 s1 c1
8 0.000001000 l0 0 m c1 \"1\" 8
9 0.000002200 l0 0 m c2 \"1\"
7605 Some(\"%EventDef PajeDefineContainerType 0\")
5 0.000001000 s0 c1 \"work\"
5 0.000001100 s0 c1 \"kernel 0\"
6 0.000002100 s0 c1
6 0.000002200 s0 c1
5 0.000001000 s1 c1 \"work\"
5 0.000001100 s1 c1 \"kernel 0\"
6 0.000002100 s1 c1
6 0.000002200 s1 c1
5 0.000001000 s0 c2 \"work\"
5 0.000001100 s0 c2 \"kernel 4\"
6 0.000006100 s0 c2
6 0.000006200 s0 c2
5 0.000001000 s1 c2 \"work\"
5 0.000001100 s1 c2 \"kernel 3\"
6 0.000005100 s1 c2
6 0.000005200 s1 c2
8 0.000001000 l0 0 m c1 \"1\" 8
9 0.000002200 l0 0 m c2 \"1\"
8 0.000001000 l0 0 m c2 \"3\" 32
9 0.000005200 l0 0 m c3 \"3\"
";

#[test]
fn texts_of_generated_traces(rt: HostRuntime) -> Result<(), Fail> {
    let mut out = String::new(rt.alloc());
    add_written(&mut out, rt.alloc(), 0)?;
    add_written(&mut out, rt.alloc(), 8)?;
    add_written(&mut out, rt.alloc(), 16)?;
    assert_eq!(rt; out.as_str(), WRITTEN);
    Ok(())
}
