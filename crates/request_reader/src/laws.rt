//! Laws of the definitions. The bodies are empty.
ghost use Rattle.std.specs.Prelude.{◌≡◌, ◌≢◌, ℕ, List, [], ◌∷◌, ◌++◌, None};
ghost use Rattle.session_proto.specs.declared.request.Request.TheVariants.{Quit};
ghost use Rattle.request_reader.specs.Incoming.{Spells};
ghost use Rattle.request_reader.specs.Requests.{WholeRequest, Line, AfterQuit, first_request, requests_of};
ghost use Rattle.request_reader.specs.Requests.{rest_only, onto};

/// Bytes that spell a request, with more behind them: the requests are this one and then those of what is
/// behind it. None follows QUIT.
pub fn requests_of_more()
    ensures request { (bytes more : List ℕ) (r : WholeRequest) → r ≢ Line Quit → Spells bytes r →
        requests_of (bytes ++ more) ≡ onto r (requests_of more) }
    ensures quit { (bytes more : List ℕ) → Spells bytes (Line Quit) →
        requests_of (bytes ++ more) ≡ record { all = Line Quit ∷ []; ending = AfterQuit } }
{}

/// Bytes that have no whole request have none.
pub fn requests_of_rest()
    ensures { (bytes : List ℕ) → first_request bytes ≡ None → requests_of bytes ≡ rest_only bytes }
{}
