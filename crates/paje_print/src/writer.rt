//! The canonical text of a trace.
ghost use Rattle.std.specs.Prelude.{◌≡◌, ◌≤◌, ◌++◌, ◌∷◌, [], IfOk, OnOk, drop, length, map};
ghost use Rattle.std.specs.List.{enumerate_from, flat_map, zip};
ghost use Rattle.paje_print.specs.Canonical.{IsCanonical};
ghost use Rattle.paje_print.specs.CanonicalText.{canonical_text, create_line, destroy_line, link_line};
ghost use Rattle.paje_print.specs.CanonicalText.{link_type_line, process_type_line, state_line};
ghost use Rattle.paje_print.specs.CanonicalText.{state_type_line, track_lines};
ghost use Rattle.paje_print.specs.WrittenEvents.{definitions_written};
ghost use Rattle.paje_print.specs.WrittenNumbers.{container_alias, state_type_alias};
ghost use Rattle.paje_print.specs.WrittenWords.{ended_line, lines_text};

use crate::lines::{
    add_create, add_destroy, add_link, add_link_type, add_reset, add_state, add_state_type,
    add_track_names,
};
use crate::text_parts::add;
use std::alloc::Global;
use trace_base::{
    Container, Event, LinkEvent, MAX_CONTAINERS, Memory, Name, Seq, TraceText, Track, TrackStream,
};

/// The definitions of the events that a canonical text has, and the line of its type of containers.
const DEFINITIONS: &[u8] = b"\
%EventDef PajeDefineContainerType 0
% Alias string
% Type string
% Name string
%EndEventDef
%EventDef PajeDefineStateType 1
% Alias string
% Type string
% Name string
%EndEventDef
%EventDef PajeDefineLinkType 2
% Alias string
% Type string
% StartContainerType string
% EndContainerType string
% Name string
%EndEventDef
%EventDef PajeCreateContainer 3
% Time date
% Alias string
% Type string
% Container string
% Name string
%EndEventDef
%EventDef PajeDestroyContainer 4
% Time date
% Type string
% Name string
%EndEventDef
%EventDef PajePushState 5
% Time date
% Type string
% Container string
% Value string
%EndEventDef
%EventDef PajePopState 6
% Time date
% Type string
% Container string
%EndEventDef
%EventDef PajeResetState 7
% Time date
% Type string
% Container string
%EndEventDef
%EventDef PajeStartLink 8
% Time date
% Type string
% Container string
% Value string
% StartContainer string
% Key string
% Size int
%EndEventDef
%EventDef PajeEndLink 9
% Time date
% Type string
% Container string
% Value string
% EndContainer string
% Key string
%EndEventDef
0 P 0 \"P\"
";

/// Adds the definitions, and the line of the type of containers.
#[tactic(auto, using(crate::proofs::WholeText::definitions_text))]
fn add_definitions(out: &mut Vec<u8>) -> Result<(), Memory>
    ensures { OnOk result (out.new.items ≡ out.old.items
        ++ (lines_text definitions_written ++ ended_line process_type_line)) }
{
    add(out, DEFINITIONS)
}

/// Adds the lines of the state types.
fn add_state_types(out: &mut Vec<u8>, kinds: &[Name]) -> Result<(), Memory>
    ensures { OnOk result (out.new.items ≡ out.old.items
        ++ lines_text (map state_type_line (enumerate_from 0 kinds.now))) }
{
    for i in 0..kinds.len() {
        add_state_type(out, i as u64, &kinds[i])?;
    }
    Ok(())
}

/// Adds the lines of the link types.
fn add_link_types(out: &mut Vec<u8>, kinds: &[Name]) -> Result<(), Memory>
    ensures { OnOk result (out.new.items ≡ out.old.items
        ++ lines_text (map link_type_line (enumerate_from 0 kinds.now))) }
{
    for i in 0..kinds.len() {
        add_link_type(out, i as u64, &kinds[i])?;
    }
    Ok(())
}

/// Adds the lines that create the containers. The first is the root, which has no line.
fn add_creates(out: &mut Vec<u8>, containers: &[Container]) -> Result<(), Memory>
    requires { length containers.now ≤ MAX_CONTAINERS }
    ensures { OnOk result (out.new.items ≡ out.old.items
        ++ lines_text (map create_line (enumerate_from 1 (drop 1 containers.now)))) }
{
    for i in 1..containers.len() {
        add_create(out, i as u32, &containers[i])?;
    }
    Ok(())
}

/// Adds the lines that destroy the containers. The first is the root, which has no line.
fn add_destroys(out: &mut Vec<u8>, containers: &[Container]) -> Result<(), Memory>
    requires { length containers.now ≤ MAX_CONTAINERS }
    ensures { OnOk result (out.new.items ≡ out.old.items
        ++ lines_text (map destroy_line (enumerate_from 1 (drop 1 containers.now)))) }
{
    for i in 1..containers.len() {
        add_destroy(out, i as u32, &containers[i])?;
    }
    Ok(())
}

/// Adds the lines of the link events.
fn add_links(out: &mut Vec<u8>, links: &[LinkEvent]) -> Result<(), Memory>
    ensures { OnOk result (out.new.items ≡ out.old.items ++ lines_text (map link_line links.now)) }
{
    for link in links {
        add_link(out, link)?;
    }
    Ok(())
}

/// Adds the lines of the events of a track, whose names these are.
fn add_events(
    out: &mut Vec<u8>,
    names: &[u8],
    functions: &[Name],
    events: &[Event],
) -> Result<(), Memory>
    ensures { (track : Track) → names.now ≡ 32 ∷ state_type_alias track.kind ++ 32 ∷ container_alias
        track.container → OnOk result (out.new.items ≡ out.old.items
        ++ lines_text (map (state_line functions.now track) events.now)) }
{
    for event in events {
        add_state(out, names, functions, *event)?;
    }
    Ok(())
}

/// Adds the lines of a track. The names of the track are put into a text that is used again.
fn add_track(
    out: &mut Vec<u8>,
    names: &mut Vec<u8>,
    functions: &[Name],
    track: Track,
    stream: &TrackStream,
) -> Result<(), Memory>
    ensures { OnOk result (out.new.items ≡ out.old.items
        ++ lines_text (track_lines functions.now (track, stream.now))) }
{
    names.clear();
    add_track_names(names, track)?;
    add_reset(out, names.as_slice(), stream.start)?;
    add_events(out, names.as_slice(), functions, stream.events.as_slice())
}

/// Adds the lines of all tracks.
fn add_tracks(
    alloc: Global,
    out: &mut Vec<u8>,
    functions: &[Name],
    tracks: &[Track],
    streams: &[TrackStream],
) -> Result<(), Memory>
    requires { length streams.now ≡ length tracks.now }
    ensures { OnOk result (out.new.items ≡ out.old.items
        ++ lines_text (flat_map (track_lines functions.now) (zip tracks.now streams.now))) }
{
    let mut names = Vec::new(alloc);
    for i in 0..tracks.len() {
        add_track(out, &mut names, functions, tracks[i], &streams[i])?;
    }
    Ok(())
}

/// The text that says exactly this trace: its event definitions, and then a line for each type, container,
/// track, state event, link event and container's end. Times are written in seconds with nine digits behind
/// the point.
///
/// # Errors
///
/// `Memory` where none was found for the text.
#[tactic(auto, using(crate::proofs::WholeText::whole_text))]
pub fn write_trace(alloc: Global, trace: &TraceText) -> Result<Seq<u8>, Memory>
    requires { IsCanonical trace.now }
    ensures { IfOk result (λ text. text ≡ canonical_text trace.now) }
{
    let names = &trace.names;
    let mut out = Vec::new(alloc);
    add_definitions(&mut out)?;
    add_state_types(&mut out, names.kinds.as_slice())?;
    add_link_types(&mut out, names.link_kinds.as_slice())?;
    add_creates(&mut out, names.containers.as_slice())?;
    add_tracks(
        alloc,
        &mut out,
        names.functions.as_slice(),
        names.tracks.as_slice(),
        trace.tracks.as_slice(),
    )?;
    add_links(&mut out, trace.links.as_slice())?;
    add_destroys(&mut out, names.containers.as_slice())?;
    Ok(Seq::from_vec(out))
}
