ghost use Rattle.std.specs.Prelude.{◌≡◌, ◌≤◌, ◌⊎◌, false, vec_capacity};
ghost use Rattle.session_proto.specs.Reply.{reply_text, is_short};
ghost use Rattle.session_proto.specs.declared.write.TheConstants.{SHORT_REPLY};
ghost use Rattle.trace_session.specs.Text.{IsTold};

use session_proto::{No, Reply, write_reply};

/// Puts the text of a reply in place of what the buffer holds. Where there is no memory for a long one, that
/// is told in its place.
pub fn reply_into(reply: &Reply, out: &mut Vec<u8>)
    requires { SHORT_REPLY ≤ vec_capacity out.old }
    ensures told { IsTold reply.now out.new.items }
    ensures capacity { SHORT_REPLY ≤ vec_capacity out.new }
{
    out.clear();
    if write_reply(reply, out).is_ok() {
        return;
    }
    match write_reply(&Reply::No(No::Memory), out) {
        Ok(()) => (),
        Err(_) => unreachable!(),
    }
}
