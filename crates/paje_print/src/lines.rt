//! Lines of a canonical text, added at its end.
ghost use Rattle.std.specs.Prelude.{◌≡◌, ◌++◌, ◌∷◌, [], OnOk, decimal};
ghost use Rattle.trace_base.specs.declared.names.Container.{Container};
ghost use Rattle.paje_print.specs.CanonicalText.{create_line, destroy_line, link_line};
ghost use Rattle.paje_print.specs.CanonicalText.{link_type_line, link_words};
ghost use Rattle.paje_print.specs.CanonicalText.{reset_line, state_line, state_type_line, text_of_function};
ghost use Rattle.paje_print.specs.WrittenNumbers.{container_alias, seconds_text, state_type_alias};
ghost use Rattle.paje_print.specs.WrittenWords.{ended_line, line_text};

use crate::text_parts::{add, add_container, add_number, add_seconds};
use trace_base::{Container, Event, LinkEvent, Memory, Name, Track};

/// Adds a text in quotes, with a space before it.
fn add_quoted(out: &mut Vec<u8>, text: &[u8]) -> Result<(), Memory>
    ensures { OnOk result (out.new.items ≡ out.old.items ++ 32 ∷ 34 ∷ text.now ++ 34 ∷ []) }
{
    add(out, b" \"")?;
    add(out, text)?;
    add(out, b"\"")
}

/// Adds the line of a state type, by its place and its name.
pub fn add_state_type(out: &mut Vec<u8>, place: u64, name: &Name) -> Result<(), Memory>
    ensures { OnOk result (out.new.items ≡ out.old.items ++ ended_line (state_type_line (place, name.now))) }
{
    add(out, b"1 s")?;
    add_number(out, place)?;
    add(out, b" P")?;
    add_quoted(out, name.as_bytes())?;
    add(out, b"\n")
}

/// Adds the line of a link type, by its place and its name.
pub fn add_link_type(out: &mut Vec<u8>, place: u64, name: &Name) -> Result<(), Memory>
    ensures { OnOk result (out.new.items ≡ out.old.items ++ ended_line (link_type_line (place, name.now))) }
{
    add(out, b"2 l")?;
    add_number(out, place)?;
    add(out, b" P P P")?;
    add_quoted(out, name.as_bytes())?;
    add(out, b"\n")
}

/// Adds the line that creates a container.
pub fn add_create(out: &mut Vec<u8>, place: u32, container: &Container) -> Result<(), Memory>
    ensures { OnOk result (out.new.items ≡ out.old.items ++ ended_line (create_line (place, container.now))) }
{
    add(out, b"3 ")?;
    add_seconds(out, container.start)?;
    add(out, b" ")?;
    add_container(out, place)?;
    add(out, b" P 0")?;
    add_quoted(out, container.name.as_bytes())?;
    add(out, b"\n")
}

/// Adds the line that destroys a container.
pub fn add_destroy(out: &mut Vec<u8>, place: u32, container: &Container) -> Result<(), Memory>
    ensures { OnOk result (out.new.items
        ≡ out.old.items ++ ended_line (destroy_line (place, container.now))) }
{
    add(out, b"4 ")?;
    add_seconds(out, container.end)?;
    add(out, b" P ")?;
    add_container(out, place)?;
    add(out, b"\n")
}

/// Adds what the lines of a track have behind their time: its state type and its container.
pub fn add_track_names(out: &mut Vec<u8>, track: Track) -> Result<(), Memory>
    ensures { OnOk result (out.new.items ≡ out.old.items ++ 32 ∷ state_type_alias track.kind
        ++ 32 ∷ container_alias track.container) }
{
    add(out, b" s")?;
    add_number(out, u64::from(track.kind))?;
    add(out, b" ")?;
    add_container(out, track.container)
}

/// Adds what both lines of a link event have in common.
fn add_link_words(out: &mut Vec<u8>, link: &LinkEvent) -> Result<(), Memory>
    ensures { OnOk result (out.new.items ≡ out.old.items ++ line_text (link_words link.now)) }
{
    add_seconds(out, link.time)?;
    add(out, b" l")?;
    add_number(out, u64::from(link.kind))?;
    add(out, b" 0 m ")?;
    add_container(out, link.container)?;
    add_quoted(out, link.key.as_bytes())
}

/// Adds the line of a link event.
pub fn add_link(out: &mut Vec<u8>, link: &LinkEvent) -> Result<(), Memory>
    ensures { OnOk result (out.new.items ≡ out.old.items ++ ended_line (link_line link.now)) }
{
    if link.starts {
        add(out, b"8 ")?;
        add_link_words(out, link)?;
        add(out, b" ")?;
        add_number(out, link.size)?;
    } else {
        add(out, b"9 ")?;
        add_link_words(out, link)?;
    }
    add(out, b"\n")
}

/// Adds the line that makes a track known. These are its names.
pub fn add_reset(out: &mut Vec<u8>, names: &[u8], start: u64) -> Result<(), Memory>
    ensures { (track : Track) → names.now ≡ 32 ∷ state_type_alias track.kind ++ 32 ∷ container_alias
        track.container → OnOk result (out.new.items ≡ out.old.items ++ ended_line (reset_line track start)) }
{
    add(out, b"7 ")?;
    add_seconds(out, start)?;
    add(out, names)?;
    add(out, b"\n")
}

/// The text of the function of this number.
fn function_text(functions: &[Name], function: u32) -> &[u8]
    ensures { result.now ≡ text_of_function functions.now function }
{
    match functions.get(function.saturating_sub(1) as usize) {
        Some(text) => text.as_bytes(),
        None => b"",
    }
}

/// Adds the line that enters a function of this text. These are its track's names.
fn add_enter(out: &mut Vec<u8>, names: &[u8], time: u64, text: &[u8]) -> Result<(), Memory>
    ensures { OnOk result (out.new.items ≡ out.old.items ++ 53 ∷ 32 ∷ seconds_text time ++ names.now
        ++ 32 ∷ 34 ∷ text.now ++ 34 ∷ 10 ∷ []) }
{
    add(out, b"5 ")?;
    add_seconds(out, time)?;
    add(out, names)?;
    add_quoted(out, text)?;
    add(out, b"\n")
}

/// Adds the line that leaves a call. These are its track's names.
fn add_leave(out: &mut Vec<u8>, names: &[u8], time: u64) -> Result<(), Memory>
    ensures { OnOk result (out.new.items ≡ out.old.items ++ 54 ∷ 32 ∷ seconds_text time ++ names.now
        ++ 10 ∷ []) }
{
    add(out, b"6 ")?;
    add_seconds(out, time)?;
    add(out, names)?;
    add(out, b"\n")
}

/// Adds the line of a state event. These are its track's names.
pub fn add_state(
    out: &mut Vec<u8>,
    names: &[u8],
    functions: &[Name],
    event: Event,
) -> Result<(), Memory>
    ensures { (track : Track) → names.now ≡ 32 ∷ state_type_alias track.kind ++ 32 ∷ container_alias
        track.container → OnOk result (out.new.items ≡ out.old.items
        ++ ended_line (state_line functions.now track event)) }
{
    match event {
        Event::Enter(function, time) => add_enter(
            out,
            names,
            time,
            function_text(functions, function),
        ),
        Event::Leave(time) => add_leave(out, names, time),
    }
}
