//! What holds of the definitions of call-tree profiles and matrices; the bodies are empty.
ghost use Rattle.trace_base.specs.Matrix.{TellsEachPair};
ghost use Rattle.trace_base.specs.Paths.{TellsEachPath};

use crate::messages::Message;
use crate::stream::TrackStream;

/// The paths of a call-tree profile are those that a call stack begins with, each once, in depth-first order.
pub fn each_path_is_told(streams: &[TrackStream])
    ensures { TellsEachPath streams.now }
{}

/// The pairs of a matrix are those that have a message, each once, in order.
pub fn each_pair_is_told(messages: &[Message])
    ensures { TellsEachPair messages.now }
{}
