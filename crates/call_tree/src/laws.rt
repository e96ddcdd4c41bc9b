//! The law of streams and their trees. The clauses are the statements; the bodies are empty.
ghost use Rattle.call_tree.specs.Bounds.{TreesAreBounded};
ghost use Rattle.call_tree.specs.Laws.{TreesGiveStreams, TreesKeepEvents, TreesTellStreams};

/// The events of the tree of a legal stream, from the stream's start on, are its events. The tree, and a
/// start from which it ends within the greatest time, give a legal stream of its duration, whose tree it is.
/// So two legal streams have one tree exactly where they last as long and have the same events from their
/// starts on.
pub fn streams_and_their_trees()
    ensures there { TreesKeepEvents }
    ensures back { TreesGiveStreams }
    ensures same { TreesTellStreams }
{}

/// The tree of a legal stream has at most 8 kids at each node, is at most 2,048 high, has gaps and durations
/// within the greatest time, and, counted with repeats, no more nodes than the stream has events, or one.
pub fn bounds_of_trees()
    ensures { TreesAreBounded }
{}
