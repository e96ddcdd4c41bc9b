//! The definitions, computed. Each clause is the equation; the bodies are empty.
ghost use Rattle.std.specs.Prelude.{◌≡◌, ℕ, List, [], ◌∷◌, ◌++◌, length, None, Some, codes};
ghost use Rattle.session_proto.specs.declared.request.Request.TheVariants.{Flat, Quit};
ghost use Rattle.session_proto.specs.declared.request.Sel.TheVariants.{All};
ghost use Rattle.request_reader.specs.Requests.{requests_of, Line, Load, Unreadable, AfterQuit, Between};
ghost use Rattle.request_reader.specs.Requests.{Inside, Large};
ghost use Rattle.request_reader.specs.Incoming.{Spells};

/// Bytes, cut into requests: a text is no line, bytes behind QUIT belong to none, and a line may be cut
/// short.
#[tactic(auto, unfolding(session_proto::specs::Request::number_of, session_proto::specs::Request::words_of, session_proto::specs::Request::request_of, crate::specs::Requests::first_request, crate::specs::Requests::requests_within, crate::specs::Requests::requests_of))]
pub fn requests_of_bytes()
    ensures whole { requests_of (codes "PUT 5\nQUIT\nFLAT 1 * 0 9\nLIST\nQUIT\nmore")
        ≡ record {
          all = Load (codes "QUIT\n") ∷ Line (Flat 1 All 0 9) ∷ Unreadable ∷ Line Quit ∷ [];
          ending = AfterQuit;
        } }
    ensures between { requests_of (codes "\n") ≡ record { all = Unreadable ∷ []; ending = Between } }
    ensures inside { requests_of (codes "PUT 9\nshort") ≡ record { all = []; ending = Inside } }
    ensures inside_of_a_large_text { requests_of (codes "PUT 67108865\nQUIT\n")
        ≡ record { all = []; ending = Inside } }
    ensures nothing { requests_of [] ≡ record { all = []; ending = Between } }
{}

/// A load of the greatest text that is read, and one of a text with one byte more.
pub fn loads_at_the_limit()
    ensures greatest { (text : List ℕ) → length text ≡ 67108864
        → Spells (codes "PUT 67108864\n" ++ text) (Load text) }
    ensures large { (text : List ℕ) → length text ≡ 67108865 → Spells (codes "PUT 67108865\n" ++ text) Large }
{}
