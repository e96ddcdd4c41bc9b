ghost use Rattle.std.specs.Prelude.{◌≡◌, ◌≤◌, ℕ, List, [], ◌∷◌, length};
ghost use Rattle.trace_base.specs.Info.{IsLegalInfo};
ghost use Rattle.hall_history.specs.Seat.{IsAtRest};
ghost use Rattle.request_reader.specs.Requests.{Load};
ghost use Rattle.paje_lines.specs.Text.{info_of_text};
ghost use Rattle.paje_reader.specs.TextSaid.{Says};
ghost use Rattle.trace_session.specs.Serving.{Serves};
ghost use Rattle.hall_trait.specs.Pass.{pass_view, IsFresh};
ghost use Rattle.builders.specs.Spending.{BuildSpends};
ghost use Rattle.builders.specs.View.{GoesOnBuilding};
ghost use Rattle.trace_session.specs.Load.{AreTracksOf, FitAll, Publishes, refusal_of};

use builders::build_track;
use hall_trait::{Hall, HallFault, LoadPass};
use message_lists::match_links;
use paje_reader::{ReadFault, read_trace};
use session_proto::{No, Reply};
use std::alloc::Global;
use std::sync::{Arc, Wait};
use trace_base::{MAX_TEXT, Seq, TraceInfo, TraceText, TrackStream};

/// Serves the load of this text: where none of its lines is refused, its trace is opened.
#[tactic(auto, using(crate::proofs::Opening::put_memory))]
pub fn serve_load<R: Wait, H: Hall>(rt: &R, alloc: Global, hall: &mut H, text: &[u8]) -> Reply
    requires rest { IsAtRest (H.view hall.old).seat }
    requires limit { length text.now ≤ MAX_TEXT }
    ensures { Serves (H.view hall.old) (H.view hall.new) (Load text.now) result }
{
    match read_trace(alloc, text) {
        Ok(trace) => open_trace(rt, alloc, hall, trace),
        Err(ReadFault::Refused(refusal)) => {
            Reply::No(No::Text(refusal.line, refusal.why.word()))
        }
        Err(ReadFault::Memory) => Reply::No(No::Memory),
    }
}

// Opens a legal trace, publishes its tracks and seals it.
fn open_trace<R: Wait, H: Hall>(rt: &R, alloc: Global, hall: &mut H, trace: TraceText) -> Reply
    requires rest { IsAtRest (H.view hall.old).seat }
    requires legal { IsLegalInfo (info_of_text trace) }
    requires lengths { length trace.tracks ≡ length trace.names.tracks }
    requires fits { FitAll (info_of_text trace) trace.tracks }
    ensures { (text : List ℕ) → Says text trace → Serves (H.view hall.old) (H.view hall.new) (Load text) result }
{
    let TraceText {
        names,
        tracks,
        links,
    } = trace;
    let Ok(messages) = match_links(alloc, links.as_slice()) else {
        return Reply::No(No::Memory);
    };
    drop(links);
    let track_count = names.tracks.len() as u64;
    let functions = names.functions.len() as u64;
    let message_count = messages.messages.len() as u64;
    let Ok(info) = Arc::new(alloc, TraceInfo { names, messages }) else {
        return Reply::No(No::Memory);
    };
    match hall.admit(rt, info) {
        Ok(pass) => {
            let id = pass.id();
            match publish_all(rt, alloc, hall, pass, tracks) {
                Ok(place) => Reply::Put {
                    id,
                    tracks: track_count,
                    functions,
                    messages: message_count,
                    place,
                },
                Err(given_up) => refusal(given_up),
            }
        }
        Err(refused) => refusal(refused),
    }
}

// The reply to a load that the hall refused.
fn refusal(fault: HallFault) -> Reply
    ensures { result ≡ refusal_of fault }
{
    match fault {
        HallFault::Memory => Reply::No(No::Memory),
        HallFault::Spent(n) => Reply::No(No::Spent(n)),
        HallFault::Full(place) => Reply::No(No::Full(place)),
    }
}

// Builds and publishes the tracks of a trace that was let in, one after the other, and seals it; answers the
// place of the seal. Where a tree can't be built the load is given up.
fn publish_all<R: Wait, H: Hall>(
    rt: &R,
    alloc: Global,
    hall: &mut H,
    mut pass: LoadPass,
    tracks: Seq<TrackStream>,
) -> Result<u64, HallFault>
    requires stakes { (H.view hall.old).seat.stakes ≡ [] }
    requires passes { (H.view hall.old).seat.passes ≡ pass_view pass ∷ [] }
    requires pins { (H.view hall.old).seat.pins ≡ [] }
    requires fresh { IsFresh pass (length tracks) }
    requires tracks { AreTracksOf (H.view hall.old).seat.seen pass.id tracks }
    ensures published { Publishes (H.view hall.old) (H.view hall.new) pass.id tracks result }
    ensures rest { GoesOnBuilding result (H.view hall.old) (H.view hall.new) }
    ensures spent { BuildSpends (H.view hall.new).rooms result }
{
    for s in tracks.into_vec() {
        match build_track(rt, alloc, hall, &s) {
            Ok(root) => {
                hall.publish(rt, &mut pass, s.start, root);
            }
            Err(fault) => {
                hall.abandon(rt, pass);
                return Err(fault);
            }
        }
    }
    Ok(hall.seal(rt, pass))
}
