ghost use Rattle.std.specs.Prelude.{◌≡◌, ◌+◌, ◌≤◌, ◌++◌, length, vec_len, vec_capacity};
ghost use Rattle.session_proto.specs.Reply.{spaced};
ghost use Rattle.session_proto.specs.declared.write.TheConstants.{SHORT_REPLY};
ghost use Rattle.trace_session.specs.Run.{left_text};

use hall_history::Left;
use itoa::Buffer;

/// Puts the line that tells what is left of the loads in place of what the buffer holds.
pub fn left_into(left: Left, out: &mut Vec<u8>)
    requires { SHORT_REPLY ≤ vec_capacity out.old }
    ensures { out.new.items ≡ left_text left }
{
    out.clear();
    add(out, b"LEFT");
    add_spaced(out, left.traces);
    add_spaced(out, left.nodes);
    add(out, b"\n");
}

// Adds a space and a number, for which there is room.
fn add_spaced(out: &mut Vec<u8>, n: u64)
    requires { vec_len out.old + 21 ≤ vec_capacity out.old }
    ensures items { out.new.items ≡ out.old.items ++ spaced n }
    ensures len { vec_len out.new ≤ vec_len out.old + 21 }
    ensures capacity { vec_capacity out.old ≤ vec_capacity out.new }
{
    let mut buffer = Buffer::new();
    add(out, b" ");
    add(out, buffer.format(n).as_bytes());
}

// Adds bytes for which there is room.
fn add(out: &mut Vec<u8>, bytes: &[u8])
    requires { vec_len out.old + length bytes.now ≤ vec_capacity out.old }
    ensures items { out.new.items ≡ out.old.items ++ bytes.now }
    ensures len { vec_len out.new ≡ vec_len out.old + length bytes.now }
    ensures capacity { vec_capacity out.old ≤ vec_capacity out.new }
{
    match out.extend_from_slice(bytes) {
        Ok(()) => (),
        Err(_) => unreachable!(),
    }
}
