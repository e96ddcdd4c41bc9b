//! The definitions, computed on the first session. Each clause is the equation; the bodies are empty.
ghost use Rattle.std.specs.Prelude.{◌≡◌, [], ◌∷◌, ◌++◌, Bool, List, codes};
ghost use Rattle.trace_base.specs.Examples.{two_calls as calls_stream};
ghost use Rattle.trace_base.specs.Stream.{pieces};
ghost use Rattle.hall_history.specs.History.{Entry};
ghost use Rattle.request_reader.specs.Requests.{requests_of, Line, Load, AfterQuit};
ghost use Rattle.session_proto.specs.declared.request.Request.TheVariants.{Flat, Quit};
ghost use Rattle.session_proto.specs.declared.request.Sel.TheVariants.{All};
ghost use Rattle.session_proto.specs.Reply.{reply_text};
ghost use Rattle.session_proto.specs.declared.reply.No.TheVariants.{Full, Unknown};
ghost use Rattle.session_proto.specs.declared.reply.Reply.TheVariants.{Put as PutReply, Flat as FlatReply};
ghost use Rattle.session_proto.specs.declared.reply.Reply.TheVariants.{No as NoReply};
ghost use Rattle.trace_session.specs.Replies.{flat_reply};
ghost use Rattle.trace_session.specs.Examples.{first_text, first_input, first_history};
ghost use Rattle.trace_session.specs.Served.{last_place, Served, IsServed};

/// The pieces of main calling f twice.
#[tactic(auto, unfolding(trace_base::specs::Stream::stack_after, trace_base::specs::Stream::pieces))]
pub fn pieces_of_two_calls()
    ensures { pieces calls_stream ≡ record { from = 0; to = 0; stack = [] }
        ∷ record { from = 0; to = 100000000; stack = 1 ∷ [] }
        ∷ record { from = 100000000; to = 200000000; stack = 1 ∷ 2 ∷ [] }
        ∷ record { from = 200000000; to = 300000000; stack = 1 ∷ [] }
        ∷ record { from = 300000000; to = 400000000; stack = 1 ∷ 2 ∷ [] }
        ∷ record { from = 400000000; to = 500000000; stack = 1 ∷ [] }
        ∷ record { from = 500000000; to = 500000000; stack = [] } ∷ [] }
{}

/// The first session's input is three requests.
#[tactic(auto, unfolding(session_proto::specs::Request::number_of, session_proto::specs::Request::words_of, session_proto::specs::Request::request_of, request_reader::specs::Requests::first_request, request_reader::specs::Requests::requests_within, request_reader::specs::Requests::requests_of, crate::specs::Examples::first_text, crate::specs::Examples::first_input))]
pub fn requests_of_first_input()
    ensures { requests_of first_input ≡ record {
      all = Load first_text ∷ Line (Flat 1 All 0 500000000) ∷ Line Quit
          ∷ [];
      ending = AfterQuit;
    } }
{}

/// The reply to its profile, at its place in the history.
#[tactic(auto, unfolding(trace_base::specs::Stream::stack_after, trace_base::specs::Stream::pieces, trace_base::specs::Flat::time_with, trace_base::specs::Flat::calls_in, trace_base::specs::Flat::row_of, trace_base::specs::Flat::greatest_function, trace_base::specs::Flat::flat, hall_history::specs::History::opened_ids, hall_history::specs::History::info_of, hall_history::specs::History::published_of, hall_history::specs::History::stream_of, node_key::specs::Trees::tree, node_key::specs::Bound::bound, node_key::specs::Calls::outer_calls, node_key::specs::Events::events, hall_history::specs::History::is_open, crate::specs::Replies::streams_of, crate::specs::Replies::flat_reply))]
pub fn reply_of_first_profile()
    ensures open { flat_reply first_history 4 1 0 500000000 ≡ FlatReply 1 0
        (record {
          row = record { func = 1; calls = 1; incl = 500000000; excl = 300000000 };
          name = codes "main";
        }
        ∷ record {
          row = record { func = 2; calls = 2; incl = 200000000; excl = 200000000 };
          name = codes "f";
        } ∷ []) 4 }
    ensures unknown { flat_reply first_history 4 7 0 1 ≡ NoReply (Unknown 7 4) }
{}

/// The texts of replies.
#[tactic(auto, unfolding(session_proto::specs::Reply::reply_text))]
pub fn texts_of_replies()
    ensures put { reply_text (PutReply 1 1 2 0 3) ≡ codes "OK PUT 1 1 2 0 @3\n" }
    ensures profile { reply_text
        (FlatReply 1 0 (record {
          row = record { func = 2; calls = 2; incl = 200000000; excl = 200000000 };
          name = codes "f";
        } ∷ []) 4)
        ≡ codes "OK FLAT 1 1 0 @4\n2 2 200000000 200000000 f\n" }
    ensures unknown { reply_text (NoReply (Unknown 7 1)) ≡ codes "NO 30 7 @1\n" }
    ensures full { reply_text (NoReply (Full 2049)) ≡ codes "NO 36 1024 @2049\n" }
{}

/// The places of a block.
pub fn last_places()
    ensures none { last_place [] ≡ 0 }
    ensures some { last_place (1 ∷ 2 ∷ 3 ∷ []) ≡ 3 }
{}

/// A request that was served in a history is served in each that goes on.
pub fn served_stays()
    ensures { (alone : Bool) (history more : List Entry) (x : Served) → IsServed alone history x
        → IsServed alone (history ++ more) x }
{}
