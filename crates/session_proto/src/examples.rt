//! The definitions, computed on lines and replies. Each clause is the equation; the bodies are empty.
ghost use Rattle.std.specs.Prelude.{◌≡◌, [], ◌∷◌, None, Some, codes};
ghost use Rattle.session_proto.specs.Request.{request_of};
ghost use Rattle.session_proto.specs.declared.request.Request.TheVariants.{Put, Flat, Quit};
ghost use Rattle.session_proto.specs.declared.request.Sel.TheVariants.{All};

/// Lines that are requests, and lines that miss it by one thing.
#[tactic(auto, unfolding(crate::specs::Request::number_of, crate::specs::Request::words_of, crate::specs::Request::request_of))]
pub fn request_lines()
    ensures put { request_of (codes "PUT 697") ≡ Some (Put 697) }
    ensures greatest_put { request_of (codes "PUT 18446744073709551615") ≡ Some (Put 18446744073709551615) }
    ensures too_great_put { request_of (codes "PUT 18446744073709551616") ≡ None }
    ensures flat { request_of (codes "FLAT 1 * 0 500000000") ≡ Some (Flat 1 All 0 500000000) }
    ensures zero { request_of (codes "FLAT 01 * 0 5") ≡ None }
    ensures reversed { request_of (codes "FLAT 1 * 5 5") ≡ None }
    ensures quit { request_of (codes "QUIT") ≡ Some Quit }
    ensures space { request_of (codes "QUIT ") ≡ None }
    ensures list { request_of (codes "LIST ") ≡ None }
    ensures empty { request_of [] ≡ None }
{}
