//! Trees and their kids.
ghost use Rattle.profile_laws.specs.Laws.{OfCall, OfGroup, OfInside};
ghost use Rattle.profile_laws.specs.Parts.{IsTimed};
ghost use Rattle.profile_math.specs.Closing.{closed};
ghost use Rattle.profile_math.specs.Laws.{IsComplete};
ghost use Rattle.profile_math.specs.PathClosing.{closed_paths};
ghost use Rattle.node_key.specs.Events.{stream_from};
ghost use Rattle.node_key.specs.Tree.{Tree};
ghost use Rattle.node_key.specs.Trees.{tree};
ghost use Rattle.node_key.specs.Whole.{whole_flat, whole_paths};
ghost use Rattle.std.specs.Prelude.{ℕ};
ghost use Rattle.trace_base.specs.Flat.{flat};
ghost use Rattle.trace_base.specs.Paths.{paths};
ghost use Rattle.trace_base.specs.Stream.{IsLegal};
ghost use Rattle.trace_base.specs.declared.stream.TrackStream.{TrackStream};

/// The flat profile.
pub fn flat_of_trees()
    ensures group { OfGroup flat }
    ensures call { OfCall flat closed }
    ensures inside { OfInside flat whole_flat }
{}

/// The call-tree profile.
pub fn paths_of_trees()
    ensures group { OfGroup paths }
    ensures call { OfCall paths closed_paths }
    ensures inside { OfInside paths whole_paths }
{}

/// Trees of legal streams are trees whose kids fit into them, and the streams of such trees are complete.
pub fn trees_of_streams()
    ensures timed { (s : TrackStream) → IsLegal s → IsTimed (tree s) }
    ensures complete { (t : Tree) (at : ℕ) → IsTimed t → IsComplete (stream_from t at) }
{}
