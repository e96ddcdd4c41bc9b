//! Traces written out, for tests.
use std::test::Fail;
use trace_base::{Container, LinkEvent, Name, TraceText, Track, TrackStream};

/// Bytes as a text.
pub fn text_of(bytes: &[u8]) -> &str {
    match str::from_utf8(bytes) {
        Ok(text) => text,
        Err(_) => "(no text)",
    }
}

fn add_containers(out: &mut String, containers: &[Container]) -> Result<(), Fail> {
    for container in containers {
        let name = text_of(container.name.as_bytes());
        writeln!(
            out,
            "container {} {} {name}",
            container.start, container.end
        )?;
    }
    Ok(())
}

/// Adds a line for each name, with what it names.
pub fn add_names(out: &mut String, sort: &str, names: &[Name]) -> Result<(), Fail> {
    for name in names {
        let name = text_of(name.as_bytes());
        writeln!(out, "{sort} {name}")?;
    }
    Ok(())
}

fn add_tracks(out: &mut String, tracks: &[Track]) -> Result<(), Fail> {
    for track in tracks {
        writeln!(out, "track {} {}", track.container, track.kind)?;
    }
    Ok(())
}

/// Adds a line for each stream: its start, its end and its events.
pub fn add_streams(out: &mut String, streams: &[TrackStream]) -> Result<(), Fail> {
    for stream in streams {
        let events = stream.events.as_slice();
        writeln!(out, "stream {} {}: {events:?}", stream.start, stream.end)?;
    }
    Ok(())
}

/// Adds a line for each end of a message: its link type, its key, its container, its time and its size.
pub fn add_links(out: &mut String, links: &[LinkEvent]) -> Result<(), Fail> {
    for link in links {
        let way = if link.starts { "send" } else { "receive" };
        let key = text_of(link.key.as_bytes());
        writeln!(
            out,
            "{way} {} {key} {} {} {}",
            link.kind, link.container, link.time, link.size
        )?;
    }
    Ok(())
}

/// Adds a trace as tests write it: its end; a line for each container with its start, end and name; one for
/// each state type, link type and function, by name; for each track its container and state type; its
/// streams; its ends of messages.
pub fn add_trace(out: &mut String, text: &TraceText) -> Result<(), Fail> {
    let names = &text.names;
    writeln!(out, "end {}", names.end)?;
    add_containers(out, names.containers.as_slice())?;
    add_names(out, "kind", names.kinds.as_slice())?;
    add_names(out, "link", names.link_kinds.as_slice())?;
    add_names(out, "function", names.functions.as_slice())?;
    add_tracks(out, names.tracks.as_slice())?;
    add_streams(out, text.tracks.as_slice())?;
    add_links(out, text.links.as_slice())
}
