ghost use Rattle.std.specs.Prelude.{◌≡◌, ◌-◌, ◌≤◌, ◌<◌, ◌⊎◌, List, [], length, map, take};
ghost use Rattle.std.specs.Prelude.{Contains, IfOk, slice_index_or};
ghost use Rattle.trace_base.specs.Flat.{flat};
ghost use Rattle.hall_history.specs.History.{info_of, tracks_of};
ghost use Rattle.profile_walk.specs.Walks.{OnlyWalks};
ghost use Rattle.hall_trait.specs.Pin.{pin_view};
ghost use Rattle.hall_history.specs.Asks.{first_id};
ghost use Rattle.hall_history.specs.Seat.{IsAtRest};
ghost use Rattle.request_reader.specs.Requests.{Line};
ghost use Rattle.session_proto.specs.declared.request.Request.TheVariants.{Flat};
ghost use Rattle.session_proto.specs.declared.request.Sel.TheVariants as sel;
ghost use Rattle.session_proto.specs.declared.reply.No.TheVariants.{Memory as NoMemory};
ghost use Rattle.session_proto.specs.declared.reply.Reply.TheVariants.{No as Refused};
ghost use Rattle.trace_session.specs.Replies.{streams_of, functions_of, named, profile_reply};
ghost use Rattle.trace_session.specs.Serving.{Serves};

use flat_profile::flat;
use hall_history::AskIds;
use hall_trait::{AskAnswer, Hall, Pin};
use session_proto::{NamedRow, No, Reply};
use std::alloc::Global;
use std::sync::Wait;
use trace_base::{MAX_TIME, Memory, Name, Row, Seq};

/// Serves a FLAT: the flat profile of the trace's published tracks over the half-open interval [a, b), in
/// nanoseconds.
pub fn serve_flat<R: Wait, H: Hall>(
    rt: &R,
    alloc: Global,
    hall: &mut H,
    id: u64,
    a: u64,
    b: u64,
) -> Reply
    requires rest { IsAtRest (H.view hall.old).seat }
    requires below { a < b }
    requires limit { b ≤ MAX_TIME }
    ensures { Serves (H.view hall.old) (H.view hall.new) (Line (Flat id sel.All a b)) result }
{
    match hall.ask(rt, AskIds::One(id)) {
        AskAnswer::Pinned(pin) => {
            let reply = pinned_profile(rt, alloc, hall, &pin, a, b);
            hall.unpin(rt, pin);
            reply
        }
        AskAnswer::Unknown {
            id: unknown,
            next: _,
            place,
        } => Reply::No(No::Unknown { id: unknown, place }),
        AskAnswer::Spent(n) => Reply::No(No::Spent(n)),
    }
}

// The profile that the pin sees; without memory that refusal.
fn pinned_profile<R: Wait, H: Hall>(
    rt: &R,
    alloc: Global,
    hall: &mut H,
    pin: &Pin,
    a: u64,
    b: u64,
) -> Reply
    requires has { Contains (H.view hall.old).seat.pins (pin_view pin.now) }
    requires tracks { pin.now.first.tracks ≡ tracks_of (take pin.now.place (H.view hall.old).seat.seen)
        (first_id pin.now.ids) }
    ensures reply { let seen = take pin.now.place (H.view hall.old).seat.seen in let id = first_id pin.now.ids in
        (result ≡ profile_reply (length (streams_of seen id)) (functions_of seen id) pin.now.place
        (flat (streams_of seen id) a b))
        ⊎ (result ≡ Refused NoMemory) }
    ensures rest { OnlyWalks (H.view hall.old) (H.view hall.new) }
{
    let Ok(info) = hall.info(rt, pin, 0) else {
        return Reply::No(No::Memory);
    };
    match profile_over(rt, alloc, hall, pin, info.names.functions.as_slice(), a, b) {
        Ok(reply) => reply,
        Err(Memory) => Reply::No(No::Memory),
    }
}

// The profile of the tracks that the pin sees, with these names.
#[tactic(auto, unfolding(crate::specs::Replies::streams_of))]
fn profile_over<R: Wait, H: Hall>(
    rt: &R,
    alloc: Global,
    hall: &mut H,
    pin: &Pin,
    functions: &[Name],
    a: u64,
    b: u64,
) -> Result<Reply, Memory>
    requires has { Contains (H.view hall.old).seat.pins (pin_view pin.now) }
    requires tracks { pin.now.first.tracks ≡ tracks_of (take pin.now.place (H.view hall.old).seat.seen)
        (first_id pin.now.ids) }
    ensures reply { let streams = streams_of (take pin.now.place (H.view hall.old).seat.seen)
        (first_id pin.now.ids) in
        IfOk result (λ r. r ≡ profile_reply (length streams) functions.now pin.now.place (flat streams a b)) }
    ensures rest { OnlyWalks (H.view hall.old) (H.view hall.new) }
{
    let sum = flat(rt, alloc, hall, pin, 0, pin.first.tracks, a, b)?;
    let rows = named_rows(alloc, sum.profile.rows.as_slice(), functions)?;
    Ok(Reply::Flat {
        over: sum.over,
        bare: sum.profile.bare,
        rows,
        place: pin.place,
    })
}

// The rows with the names of their functions.
fn named_rows(alloc: Global, rows: &[Row], functions: &[Name]) -> Result<Seq<NamedRow>, Memory>
    ensures { IfOk result (λ out. out ≡ map (named functions.now) rows.now) }
{
    let mut out = Seq::new(alloc);
    for row in rows {
        let name = function_name(alloc, functions, row.func)?;
        out.push(NamedRow { row: *row, name })?;
    }
    Ok(out)
}

// The name of a function, counted from 1.
fn function_name(alloc: Global, functions: &[Name], function: u32) -> Result<Name, Memory>
    ensures { IfOk result (λ name. name ≡ slice_index_or functions.now (function - 1) []) }
{
    match functions.get(function.saturating_sub(1) as usize) {
        Some(name) => Name::from_bytes(alloc, name.as_bytes()),
        None => Name::from_bytes(alloc, &[]),
    }
}
