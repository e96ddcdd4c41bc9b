//! What the entries of a history keep of the streams that were loaded. The clauses are the statements; the
//! bodies are empty.
ghost use Rattle.std.specs.Prelude.{◌≡◌};
ghost use Rattle.trace_base.specs.Stream.{IsLegal};
ghost use Rattle.trace_base.specs.declared.stream.TrackStream.{TrackStream};
ghost use Rattle.hall_history.specs.History.{published_tree, stream_published};

/// A legal stream is read off the start and the tree that are published of it.
#[tactic(auto, using(crate::proofs::PublishedStreams::stream_read_back))]
pub fn published_streams_stay()
    ensures { (s : TrackStream) → IsLegal s → stream_published (published_tree s) ≡ s }
{}
