//! What the definitions give on small traces. The statements are the clauses; the bodies are empty.
ghost use Rattle.std.specs.Prelude.{◌≡◌, ◌∷◌, [], codes, map};
ghost use Rattle.trace_base.specs.LegalExamples.{track_of_kind};
ghost use Rattle.paje_lines.specs.Examples.{from, leave_texts};
ghost use Rattle.paje_print.specs.Examples.{beside_track, quiet_process, received, sent, small_trace};
ghost use Rattle.paje_read_back.specs.Examples.{outline, outlined, texts_in_order};
ghost use Rattle.paje_read_back.specs.ToldLines.{both_ends_texts, declarations_told, destroyed_texts};
ghost use Rattle.paje_read_back.specs.ToldLines.{end_texts, ends_told, first_told, links_told, start_texts};
ghost use Rattle.paje_read_back.specs.ToldLines.{states_told, told_lines, with_time};

use paje_defs::{EventName, Role};

/// The texts of a line that has a time, of the end of a container, and of both ends of a message.
pub fn texts_of_lines()
    ensures time { texts_in_order (with_time 3 (leave_texts (codes "s0") (codes "c1")))
        ≡ (Role.Time, codes "0.000000003") ∷ (Role.Kind, codes "s0") ∷ (Role.Holder, codes "c1") ∷ [] }
    ensures destroyed { texts_in_order (destroyed_texts (codes "P") (codes "c1"))
        ≡ (Role.Kind, codes "P") ∷ (Role.Name, codes "c1") ∷ [] }
    ensures both_ends { texts_in_order (both_ends_texts (sent 1 100))
        ≡ (Role.Kind, codes "l0") ∷ (Role.Holder, codes "0") ∷ (Role.Value, codes "m")
        ∷ (Role.Key, codes "k") ∷ [] }
    ensures start { texts_in_order (start_texts (sent 1 100))
        ≡ (Role.Kind, codes "l0") ∷ (Role.Holder, codes "0") ∷ (Role.Value, codes "m")
        ∷ (Role.Key, codes "k") ∷ (Role.From, codes "c1") ∷ (Role.Size, codes "100") ∷ [] }
    ensures end { texts_in_order (end_texts (received 0 0))
        ≡ (Role.Kind, codes "l0") ∷ (Role.Holder, codes "0") ∷ (Role.Value, codes "m")
        ∷ (Role.Key, codes "k") ∷ (Role.To, codes "0") ∷ [] }
{}

/// The definitions of a canonical text stand on 62 lines. Behind them stand the types and the containers.
pub fn declared_lines()
    ensures first { first_told ≡ 63 }
    ensures declared { map outline (declarations_told small_trace)
        ≡ outlined 63 EventName.DefineContainerType 0
        ((Role.Alias, codes "P") ∷ (Role.Kind, codes "0") ∷ (Role.Name, codes "P") ∷ [])
        ∷ outlined 64 EventName.DefineStateType 0
        ((Role.Alias, codes "s0") ∷ (Role.Kind, codes "P") ∷ (Role.Name, codes "State") ∷ [])
        ∷ outlined 65 EventName.DefineLinkType 0
        ((Role.Alias, codes "l0") ∷ (Role.Kind, codes "P") ∷ (Role.Name, codes "Link")
        ∷ (Role.FromKind, codes "P") ∷ (Role.ToKind, codes "P") ∷ [])
        ∷ outlined 66 EventName.CreateContainer 2
        ((Role.Time, codes "0.000000002") ∷ (Role.Alias, codes "c1") ∷ (Role.Kind, codes "P")
        ∷ (Role.Name, codes "x") ∷ (Role.Holder, codes "0") ∷ []) ∷ [] }
{}

/// The lines of two tracks, the second of them without calls.
pub fn lines_of_tracks()
    ensures { map outline (from 1 (states_told (beside_track (track_of_kind 1 1) (quiet_process ∷ []))))
        ≡ outlined 1 EventName.ResetState 2
        ((Role.Time, codes "0.000000002") ∷ (Role.Kind, codes "s0") ∷ (Role.Holder, codes "c1") ∷ [])
        ∷ outlined 2 EventName.PushState 3
        ((Role.Time, codes "0.000000003") ∷ (Role.Kind, codes "s0") ∷ (Role.Holder, codes "c1")
        ∷ (Role.Value, codes "main") ∷ [])
        ∷ outlined 3 EventName.PopState 7
        ((Role.Time, codes "0.000000007") ∷ (Role.Kind, codes "s0") ∷ (Role.Holder, codes "c1") ∷ [])
        ∷ outlined 4 EventName.ResetState 2
        ((Role.Time, codes "0.000000002") ∷ (Role.Kind, codes "s1") ∷ (Role.Holder, codes "c1") ∷ [])
        ∷ [] }
{}

/// The lines of both ends of a message, of which the start alone has a size; and that of a container's end.
pub fn lines_of_links_and_ends()
    ensures links { map outline (from 1 (links_told small_trace))
        ≡ record (outlined 1 EventName.StartLink 3
        ((Role.Time, codes "0.000000003") ∷ (Role.Kind, codes "l0") ∷ (Role.Holder, codes "0")
        ∷ (Role.Value, codes "m") ∷ (Role.Key, codes "k") ∷ (Role.From, codes "c1")
        ∷ (Role.Size, codes "100") ∷ [])) { size = 100 }
        ∷ outlined 2 EventName.EndLink 7
        ((Role.Time, codes "0.000000007") ∷ (Role.Kind, codes "l0") ∷ (Role.Holder, codes "0")
        ∷ (Role.Value, codes "m") ∷ (Role.Key, codes "k") ∷ (Role.To, codes "0") ∷ []) ∷ [] }
    ensures ends { map outline (from 1 (ends_told small_trace))
        ≡ outlined 1 EventName.DestroyContainer 10
        ((Role.Time, codes "0.000000010") ∷ (Role.Kind, codes "P") ∷ (Role.Name, codes "c1") ∷ []) ∷ [] }
{}

/// All lines of a text, in order.
pub fn lines_of_a_trace()
    ensures numbers { map (λ line. line.number) (told_lines small_trace)
        ≡ 63 ∷ 64 ∷ 65 ∷ 66 ∷ 67 ∷ 68 ∷ 69 ∷ 70 ∷ 71 ∷ 72 ∷ [] }
    ensures events { map (λ line. line.event) (told_lines small_trace)
        ≡ EventName.DefineContainerType ∷ EventName.DefineStateType ∷ EventName.DefineLinkType
        ∷ EventName.CreateContainer ∷ EventName.ResetState ∷ EventName.PushState ∷ EventName.PopState
        ∷ EventName.StartLink ∷ EventName.EndLink ∷ EventName.DestroyContainer ∷ [] }
    ensures times { map (λ line. line.time) (told_lines small_trace)
        ≡ 0 ∷ 0 ∷ 0 ∷ 2 ∷ 2 ∷ 3 ∷ 7 ∷ 3 ∷ 7 ∷ 10 ∷ [] }
{}
