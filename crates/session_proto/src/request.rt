ghost use Rattle.std.specs.Prelude.{◌≡◌, ℕ, List, ◌∷◌, None, if◌then◌else◌, codes, IfSome};
ghost use Rattle.std.specs.Str.{bytes_eq};
ghost use Rattle.session_proto.specs.Request.{request_of, request_of_words, words_of, flat_of};
ghost use Rattle.session_proto.specs.Request.{IsWithinLimits};

use crate::number::number;
use crate::words::split_word;
use trace_base::{MAX_REQUEST_LINE, MAX_TIME};

/// Which tracks a query is about.
#[derive(Clone, Copy, Debug, PartialEq, Eq)]
pub enum Sel {
    /// The tracks that are published at the query's place.
    All,
}

/// A request line. Its numbers are decimal digits with no sign and no zero in front, and below 2^64.
#[derive(Clone, Copy, Debug, PartialEq, Eq)]
pub enum Request {
    /// `PUT len`: a trace text of so many bytes follows.
    Put(u64),
    /// `FLAT id * a b`: the flat profile of a trace over the half-open interval [a, b), in nanoseconds; b is
    /// at most `MAX_TIME`.
    Flat { id: u64, sel: Sel, a: u64, b: u64 },
    /// `QUIT`: the session ends.
    Quit,
}

impl Request {
    ghost use Rattle.std.specs.Prelude.{◌≡◌};
    ghost use Rattle.session_proto.specs.Request.{text_length};

    /// How many bytes of text follow the line; `None` where the line is the whole request.
    pub fn text_len(&self) -> Option<u64>
        ensures { result ≡ text_length self.now }
    {
        match self {
            Request::Put(len) => Some(*len),
            Request::Flat { .. } | Request::Quit => None,
        }
    }
}

/// The request that a line is, without its newline; `None` where it is none. A line of more than
/// `MAX_REQUEST_LINE` bytes is none.
#[tactic(auto, using(crate::proofs::Limits::request_limited), unfolding(crate::specs::Request::request_of))]
pub fn parse_request(line: &[u8]) -> Option<Request>
    ensures request { result ≡ request_of line.now }
    ensures limits { IfSome result IsWithinLimits }
{
    if line.len() > MAX_REQUEST_LINE {
        return None;
    }
    match split_word(line) {
        (verb, None) => {
            if verb == b"QUIT".as_slice() {
                Some(Request::Quit)
            } else {
                None
            }
        }
        (verb, Some(rest)) => parse_rest(verb, rest),
    }
}

// What follows a verb.
#[tactic(auto, using(crate::proofs::WordsOf::other_verb))]
fn parse_rest(verb: &[u8], rest: &[u8]) -> Option<Request>
    ensures { result ≡ request_of_words (verb.now ∷ words_of rest.now) }
{
    if verb == b"PUT".as_slice() {
        return parse_put(rest);
    }
    if verb == b"FLAT".as_slice() {
        return parse_flat(rest);
    }
    None
}

// What follows `PUT `.
#[tactic(auto, using(crate::proofs::WordsOf::put_words))]
fn parse_put(rest: &[u8]) -> Option<Request>
    ensures { result ≡ request_of_words (codes "PUT" ∷ words_of rest.now) }
{
    match split_word(rest) {
        (word, None) => number(word).map(Request::Put),
        (_, Some(_)) => None,
    }
}

// What follows `FLAT `.
#[tactic(auto, using(crate::proofs::WordsOf::flat_words))]
fn parse_flat(rest: &[u8]) -> Option<Request>
    ensures { result ≡ request_of_words (codes "FLAT" ∷ words_of rest.now) }
{
    let (id, Some(rest)) = split_word(rest) else {
        return None;
    };
    let (sel, Some(rest)) = split_word(rest) else {
        return None;
    };
    let (a, Some(rest)) = split_word(rest) else {
        return None;
    };
    match split_word(rest) {
        (b, None) => flat_over(sel, number(id), number(a), number(b)),
        (_, Some(_)) => None,
    }
}

// The request of this selection and these numbers.
fn flat_over(sel: &[u8], id: Option<u64>, a: Option<u64>, b: Option<u64>) -> Option<Request>
    ensures { result ≡ (if bytes_eq sel.now (codes "*") then flat_of id a b else None) }
{
    if sel == b"*".as_slice() {
        flat(id, a, b)
    } else {
        None
    }
}

// The request of these numbers.
fn flat(id: Option<u64>, a: Option<u64>, b: Option<u64>) -> Option<Request>
    ensures { result ≡ flat_of id a b }
{
    match (id, a, b) {
        (Some(id), Some(a), Some(b)) if a < b && b <= MAX_TIME => Some(Request::Flat {
            id,
            sel: Sel::All,
            a,
            b,
        }),
        _ => None,
    }
}
