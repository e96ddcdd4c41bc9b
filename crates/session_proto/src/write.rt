ghost use Rattle.std.specs.Prelude.{◌≡◌, ◌+◌, ◌≤◌, ◌<◌, ◌∷◌, ◌++◌, [], length, take, codes, decimal, OnOk};
ghost use Rattle.std.specs.Prelude.{OnErr, IsOk, IsTrue, vec_len, vec_capacity};
ghost use Rattle.std.specs.List.{flat_map};
ghost use Rattle.session_proto.specs.Reply.{spaced, at_place, row_text, no_text, reply_text, is_short};
ghost use Rattle.session_proto.specs.Reply.{is_short_refusal};

use crate::reply::{NamedRow, No, Reply};
use itoa::Buffer;
use trace_base::{MAX_OPEN_TRACES, Memory};

/// The room in bytes that every reply but a profile's rows fits in, where no word in it has more than 100.
pub const SHORT_REPLY: usize = 200;

// Adds bytes for which there is room.
fn add(out: &mut Vec<u8>, bytes: &[u8])
    requires { vec_len out.old + length bytes.now ≤ vec_capacity out.old }
    ensures items { out.new.items ≡ out.old.items ++ bytes.now }
    ensures len { vec_len out.new ≡ vec_len out.old + length bytes.now }
    ensures capacity { vec_capacity out.old ≤ vec_capacity out.new }
{
    match out.extend_from_slice(bytes) {
        Ok(()) => (),
        Err(_) => unreachable!(),
    }
}

// Adds a number for which there is room.
fn add_number(out: &mut Vec<u8>, n: u64)
    requires { vec_len out.old + 20 ≤ vec_capacity out.old }
    ensures items { out.new.items ≡ out.old.items ++ decimal n }
    ensures len { vec_len out.new ≤ vec_len out.old + 20 }
    ensures capacity { vec_capacity out.old ≤ vec_capacity out.new }
{
    let mut buffer = Buffer::new();
    add(out, buffer.format(n).as_bytes());
}

// Adds a space and a number, for which there is room.
fn add_spaced(out: &mut Vec<u8>, n: u64)
    requires { vec_len out.old + 21 ≤ vec_capacity out.old }
    ensures items { out.new.items ≡ out.old.items ++ spaced n }
    ensures len { vec_len out.new ≤ vec_len out.old + 21 }
    ensures capacity { vec_capacity out.old ≤ vec_capacity out.new }
{
    add(out, b" ");
    add_number(out, n);
}

// Adds a space and a long number, for which there is room.
fn add_wide(out: &mut Vec<u8>, n: u128)
    requires { vec_len out.old + 41 ≤ vec_capacity out.old }
    ensures items { out.new.items ≡ out.old.items ++ spaced n }
    ensures len { vec_len out.new ≤ vec_len out.old + 41 }
    ensures capacity { vec_capacity out.old ≤ vec_capacity out.new }
{
    let mut buffer = Buffer::new();
    add(out, b" ");
    add(out, buffer.format(n).as_bytes());
}

// Adds the end of a line that tells a place.
fn add_place(out: &mut Vec<u8>, place: u64)
    requires { vec_len out.old + 23 ≤ vec_capacity out.old }
    ensures items { out.new.items ≡ out.old.items ++ at_place place }
    ensures len { vec_len out.new ≤ vec_len out.old + 23 }
    ensures capacity { vec_capacity out.old ≤ vec_capacity out.new }
{
    add(out, b" @");
    add_number(out, place);
    add(out, b"\n");
}

// Adds the line of a text that is refused. Without memory for it nothing is added.
fn add_text_refusal(out: &mut Vec<u8>, line: u32, word: &str) -> Result<(), Memory>
    ensures ok { OnOk result (out.new.items ≡ out.old.items
        ++ (codes "NO 20" ++ spaced line ++ 32 ∷ word.now ++ 10 ∷ [])) }
    ensures err { OnErr result (out.new.items ≡ out.old.items) }
    ensures short { length word.now ≤ 100 → vec_len out.old + SHORT_REPLY ≤ vec_capacity out.old
        → IsOk result }
    ensures capacity { vec_capacity out.old ≤ vec_capacity out.new }
{
    let word = word.as_bytes();
    let Some(room) = word.len().checked_add(100) else {
        return Err(Memory);
    };
    if out.reserve(room).is_err() {
        return Err(Memory);
    }
    add(out, b"NO 20");
    add_spaced(out, u64::from(line));
    add(out, b" ");
    add(out, word);
    add(out, b"\n");
    Ok(())
}

// Adds the line of a refusal. Without memory for a long word nothing is added.
fn add_refusal(out: &mut Vec<u8>, no: &No) -> Result<(), Memory>
    requires { vec_len out.old + SHORT_REPLY ≤ vec_capacity out.old }
    ensures ok { OnOk result (out.new.items ≡ out.old.items ++ no_text no.now) }
    ensures err { OnErr result (out.new.items ≡ out.old.items) }
    ensures short { IsTrue (is_short_refusal no.now) → IsOk result }
    ensures capacity { vec_capacity out.old ≤ vec_capacity out.new }
{
    match no {
        No::Grammar => add(out, b"NO 10\n"),
        No::Text(line, word) => return add_text_refusal(out, *line, word),
        No::Large => add(out, b"NO 21\n"),
        No::Unknown { id, place } => {
            add(out, b"NO 30");
            add_spaced(out, *id);
            add_place(out, *place);
        }
        No::Full(place) => {
            add(out, b"NO 36");
            add_spaced(out, MAX_OPEN_TRACES);
            add_place(out, *place);
        }
        No::Spent(n) => {
            add(out, b"NO 40");
            add_spaced(out, *n);
            add(out, b"\n");
        }
        No::Memory => add(out, b"NO 41\n"),
    }
    Ok(())
}

// Adds the line of a trace that is open.
fn add_put(out: &mut Vec<u8>, id: u64, tracks: u64, functions: u64, messages: u64, place: u64)
    requires { vec_len out.old + SHORT_REPLY ≤ vec_capacity out.old }
    ensures items { out.new.items ≡ out.old.items
        ++ (codes "OK PUT" ++ spaced id ++ spaced tracks ++ spaced functions
        ++ spaced messages ++ at_place place) }
    ensures capacity { vec_capacity out.old ≤ vec_capacity out.new }
{
    add(out, b"OK PUT");
    add_spaced(out, id);
    add_spaced(out, tracks);
    add_spaced(out, functions);
    add_spaced(out, messages);
    add_place(out, place);
}

// Adds the first line of a profile.
fn add_flat_head(out: &mut Vec<u8>, rows: u64, over: u32, bare: u128, place: u64)
    requires { vec_len out.old + SHORT_REPLY ≤ vec_capacity out.old }
    ensures items { out.new.items ≡ out.old.items
        ++ (codes "OK FLAT" ++ spaced rows ++ spaced over ++ spaced bare ++ at_place place) }
    ensures capacity { vec_capacity out.old ≤ vec_capacity out.new }
{
    add(out, b"OK FLAT");
    add_spaced(out, rows);
    add_spaced(out, u64::from(over));
    add_wide(out, bare);
    add_place(out, place);
}

// Adds the line of a function. Without memory for it nothing is added.
fn add_row(out: &mut Vec<u8>, named: &NamedRow) -> Result<(), Memory>
    ensures ok { OnOk result (out.new.items ≡ out.old.items ++ row_text named.now) }
    ensures err { OnErr result (out.new.items ≡ out.old.items) }
    ensures capacity { vec_capacity out.old ≤ vec_capacity out.new }
{
    let name = named.name.as_bytes();
    let Some(room) = name.len().checked_add(SHORT_REPLY) else {
        return Err(Memory);
    };
    if out.reserve(room).is_err() {
        return Err(Memory);
    }
    add_number(out, u64::from(named.row.func));
    add_spaced(out, named.row.calls);
    add_wide(out, named.row.incl);
    add_wide(out, named.row.excl);
    add(out, b" ");
    add(out, name);
    add(out, b"\n");
    Ok(())
}

// Adds the lines of the functions. Without memory for them some may be added.
fn add_rows(out: &mut Vec<u8>, rows: &[NamedRow]) -> Result<(), Memory>
    ensures ok { OnOk result (out.new.items ≡ out.old.items ++ flat_map row_text rows.now) }
    ensures err { OnErr result (take (vec_len out.old) out.new.items ≡ out.old.items) }
    ensures capacity { vec_capacity out.old ≤ vec_capacity out.new }
{
    for named in rows {
        add_row(out, named)?;
    }
    Ok(())
}

/// Adds the text of a reply at the end. On `Memory` the text is as before; where there is room for
/// `SHORT_REPLY` more bytes, a reply of one line can't fail, unless a word in it has more than 100 bytes.
#[tactic(auto, unfolding(crate::specs::Reply::reply_text))]
pub fn write_reply(reply: &Reply, out: &mut Vec<u8>) -> Result<(), Memory>
    ensures ok { OnOk result (out.new.items ≡ out.old.items ++ reply_text reply.now) }
    ensures err { OnErr result (out.new.items ≡ out.old.items) }
    ensures short { IsTrue (is_short reply.now) → vec_len out.old + SHORT_REPLY ≤ vec_capacity out.old
        → IsOk result }
    ensures capacity { vec_capacity out.old ≤ vec_capacity out.new }
{
    if out.reserve(SHORT_REPLY).is_err() {
        return Err(Memory);
    }
    match reply {
        Reply::Put {
            id,
            tracks,
            functions,
            messages,
            place,
        } => {
            add_put(out, *id, *tracks, *functions, *messages, *place);
            Ok(())
        }
        Reply::Flat {
            over,
            bare,
            rows,
            place,
        } => add_flat(out, *over, *bare, rows.as_slice(), *place),
        Reply::Quit => {
            add(out, b"OK QUIT\n");
            Ok(())
        }
        Reply::No(no) => add_refusal(out, no),
    }
}

// Adds the lines of a profile. Without memory for them nothing is added.
fn add_flat(
    out: &mut Vec<u8>,
    over: u32,
    bare: u128,
    rows: &[NamedRow],
    place: u64,
) -> Result<(), Memory>
    requires { vec_len out.old + SHORT_REPLY ≤ vec_capacity out.old }
    ensures ok { OnOk result (out.new.items ≡ out.old.items
        ++ ((codes "OK FLAT" ++ spaced (length rows.now) ++ spaced over ++ spaced bare ++ at_place place)
        ++ flat_map row_text rows.now)) }
    ensures err { OnErr result (out.new.items ≡ out.old.items) }
    ensures capacity { vec_capacity out.old ≤ vec_capacity out.new }
{
    let start = out.len();
    add_flat_head(out, rows.len() as u64, over, bare, place);
    match add_rows(out, rows) {
        Ok(()) => Ok(()),
        Err(e) => {
            out.truncate(start);
            Err(e)
        }
    }
}
