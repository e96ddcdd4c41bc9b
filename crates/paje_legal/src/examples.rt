//! The laws at small traces. The statements are the clauses.
ghost use Rattle.trace_base.specs.Examples.{two_calls};
ghost use Rattle.trace_base.specs.Info.{Fits};
ghost use Rattle.paje_lines.specs.Examples.{two_calls_lines};
ghost use Rattle.paje_lines.specs.Text.{info_said};

use crate::stream_law::streams_fit_their_tracks;

/// Main calls f twice, and its container is destroyed: the only stream fits the only track.
pub fn two_calls_fit()
    ensures { Fits two_calls (info_said two_calls_lines) 0 }
{
    streams_fit_their_tracks();
}
