//! What the lines of a trace say, when all are read.
ghost use Rattle.std.specs.Prelude.{◌≡◌, List, IfOk};
ghost use Rattle.paje_lines.specs.Containers.{greatest};
ghost use Rattle.paje_lines.specs.EventLine.{EventLine};
ghost use Rattle.paje_lines.specs.Text.{text_said};

use crate::finished_tracks::FinishedTracks;
use crate::known::Known;
use trace_base::{Memory, TraceNames, TraceText};

impl Known {
    ghost use Rattle.paje_model.specs.Known.{IsKnown};

    /// What the lines say, of which `end` is the greatest time (nanoseconds). Calls that are open are left
    /// where their tracks end.
    pub fn finish(self, end: u64) -> Result<TraceText, Memory>
        requires { (lines : List EventLine) × IsKnown lines self × (end ≡ greatest lines) }
        ensures { (lines : List EventLine) → IsKnown lines self → end ≡ greatest lines
            → IfOk result (λ text. text ≡ text_said lines) }
    {
        let Known {
            types,
            containers,
            functions,
            tracks,
            links,
            ..
        } = self;
        let (kinds, link_kinds) = types.into_kinds();
        let containers = containers.into_containers(end)?;
        let functions = functions.into_names()?;
        let FinishedTracks { tracks, streams } = tracks.finish(containers.as_slice())?;
        let names = TraceNames {
            end,
            containers,
            kinds,
            link_kinds,
            tracks,
            functions,
        };
        Ok(TraceText {
            names,
            tracks: streams,
            links,
        })
    }
}
