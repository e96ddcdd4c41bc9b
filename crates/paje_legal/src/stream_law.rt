//! Each stream of a text fits its track.
ghost use Rattle.std.specs.Prelude.{◌≡◌, ℕ, List, length, slice_get, Some, None};
ghost use Rattle.trace_base.specs.Info.{Fits};
ghost use Rattle.trace_base.specs.declared.stream.TrackStream.{TrackStream};
ghost use Rattle.paje_lines.specs.EventLine.{EventLine, AreInTime};
ghost use Rattle.paje_lines.specs.Reasons.{event_refusal};
ghost use Rattle.paje_lines.specs.Text.{info_said, names_of, text_said};

/// The event lines of a trace say a stream for each track. Where none of the lines is refused, and no time is
/// past the greatest that a trace may have, each stream is legal, has the interval of its track's container,
/// and enters functions that the names number.
pub fn streams_fit_their_tracks()
    ensures count { (lines : List EventLine)
        → length (text_said lines).tracks ≡ length (names_of lines).tracks }
    ensures fits { (lines : List EventLine) → AreInTime lines → event_refusal lines ≡ None
        → (i : ℕ) (s : TrackStream) → slice_get (text_said lines).tracks i ≡ Some s
        → Fits s (info_said lines) i }
{}
