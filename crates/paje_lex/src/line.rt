ghost use Rattle.std.specs.Prelude.{◌≡◌, ℕ, ◌+◌, ◌<◌, ◌≤◌, [], ◌∷◌, IfOk, IsUtf8, MatchResult, drop, length};
ghost use Rattle.std.specs.Str.Lossy.{utf8_valid_len};
ghost use Rattle.paje_lex.specs.LineKinds.{tokens_start};
ghost use Rattle.paje_lex.specs.LineGrammar.{Answer, Lexes, LexesUnlessMemory, StandIn, filled, token};
ghost use Rattle.paje_lex.specs.LineReading.{StepsOver, joined, lexed, scan};
ghost use Rattle.paje_lex.specs.Unread.{UnlessMemory};

use crate::lex_fault::LexFault;
use crate::line_kinds::{is_blank, start_of};
use crate::state::State;
use crate::token::Token;
use crate::unread::Unread;
use memchr::memchr;
use std::alloc::Global;
use trace_base::{MAX_TRACE_LINE, Seq};

/// What stands at a place where no token is open, and the place behind it.
#[derive(Clone, Copy)]
struct Step {
    /// The token that begins there; none where it is a blank.
    token: Option<Token>,
    behind: usize,
}

/// Where a token without quotes ends that has no blank before a place.
fn plain_end(line: &[u8], from: usize) -> usize
    requires within { from ≤ length line.now }
    ensures within { (from ≤ result) × (result ≤ length line.now) }
    ensures ends { (first : ℕ) → scan (State.Plain first) from (drop from line.now)
        ≡ joined (token first result ∷ []) (scan State.Between result (drop result line.now)) }
{
    for at in from..line.len() {
        if is_blank(line[at]) {
            return at;
        }
    }
    line.len()
}

/// The token in quotes whose opening quote stands at a place.
fn quoted(line: &[u8], quote: usize) -> Result<Step, LexFault>
    requires short { length line.now ≤ MAX_TRACE_LINE }
    requires within { quote < length line.now }
    ensures within { IfOk result (λ s. (quote < s.behind) × (s.behind ≤ length line.now)) }
    ensures ends { StepsOver (scan (State.Quoted quote) (quote + 1) (drop (quote + 1) line.now)) line.now result }
{
    match memchr(b'"', &line[quote + 1..]) {
        Some(len) => {
            let from = quote + 1;
            Ok(Step {
                token: Some(Token {
                    from: from as u32,
                    to: (from + len) as u32,
                }),
                behind: from + len + 1,
            })
        }
        None => Err(LexFault::OpenQuote(quote as u32)),
    }
}

/// What stands at a place where no token is open.
fn step_at(line: &[u8], at: usize) -> Result<Step, LexFault>
    requires short { length line.now ≤ MAX_TRACE_LINE }
    requires within { at < length line.now }
    ensures within { IfOk result (λ s. (at < s.behind) × (s.behind ≤ length line.now)) }
    ensures steps { StepsOver (scan State.Between at (drop at line.now)) line.now result }
{
    match State::starting(line[at], at as u32) {
        State::Between => Ok(Step {
            token: None,
            behind: at + 1,
        }),
        State::Plain(from) => {
            let end = plain_end(line, at + 1);
            Ok(Step {
                token: Some(Token {
                    from,
                    to: end as u32,
                }),
                behind: end,
            })
        }
        State::Quoted(_) => quoted(line, at),
    }
}

/// Adds the tokens of a line that is text, from a place on.
fn scan(tokens: &mut Seq<Token>, line: &[u8], start: usize) -> Result<(), Unread<LexFault>>
    requires short { length line.now ≤ MAX_TRACE_LINE }
    requires within { start ≤ length line.now }
    ensures { UnlessMemory (filled tokens.new result)
        (joined tokens.old (scan State.Between start (drop start line.now))) }
{
    let mut at = start;
    while at < line.len() {
        let step = step_at(line, at)?;
        if let Some(token) = step.token {
            tokens.push(token)?;
        }
        at = step.behind;
    }
    Ok(())
}

/// Refuses a line that isn't text. One of ASCII alone is.
fn demand_text(line: &[u8]) -> Result<(), LexFault>
    requires { length line.now ≤ MAX_TRACE_LINE }
    ensures { MatchResult result (λ _. IsUtf8 line.now)
        (λ fault. (¬ (IsUtf8 line.now)) × (fault ≡ LexFault.NotText (utf8_valid_len line.now))) }
{
    if line.is_ascii() {
        return Ok(());
    }
    if let Err(fault) = simdutf8::compat::from_utf8(line) {
        return Err(LexFault::NotText(fault.valid_up_to() as u32));
    }
    Ok(())
}

/// Makes a list the tokens of a line: those of before are removed, and its memory is used again. After an
/// error it holds any tokens, and may be used again all the same. The tokens, and the errors, are those of
/// [`tokens`].
///
/// # Errors
///
/// `Refused` with `NotText` where the line isn't UTF-8, else with `OpenQuote` where a quote isn't closed;
/// `Memory`.
pub fn tokens_into(tokens: &mut Seq<Token>, line: &[u8]) -> Result<(), Unread<LexFault>>
    requires { length line.now ≤ MAX_TRACE_LINE }
    ensures found { LexesUnlessMemory line.now (filled tokens.new result) }
    ensures only { (wanted : Answer) → Lexes line.now wanted → UnlessMemory (filled tokens.new result) wanted }
    ensures within { IfOk (filled tokens.new result) (StandIn (length line.now)) }
    ensures exact { UnlessMemory (filled tokens.new result) (lexed line.now) }
{
    tokens.clear();
    demand_text(line)?;
    scan(tokens, line, start_of(line))
}

/// The tokens of a line, in order.
///
/// Tokens are separated by spaces and tabs. One that begins with `"` runs to the next `"` and has the bytes
/// between, maybe none; after its closing quote a new token may begin at once. Any other runs to the next
/// space or tab, and a quote inside it belongs to it. The `%` that begins a definition line belongs to none.
///
/// # Errors
///
/// `Refused` with `NotText` where the line isn't UTF-8, else with `OpenQuote` where a quote isn't closed;
/// `Memory`.
pub fn tokens(alloc: Global, line: &[u8]) -> Result<Seq<Token>, Unread<LexFault>>
    requires { length line.now ≤ MAX_TRACE_LINE }
    // What is told is so by the grammar.
    ensures found { LexesUnlessMemory line.now result }
    // What is so by the grammar is told, unless memory runs out.
    ensures only { (wanted : Answer) → Lexes line.now wanted → UnlessMemory result wanted }
    ensures within { IfOk result (StandIn (length line.now)) }
    ensures exact { UnlessMemory result (lexed line.now) }
{
    let Ok(room) = Vec::with_capacity(alloc, line.len() / 2 + 1) else {
        return Err(Unread::Memory);
    };
    let mut tokens = Seq::from_vec(room);
    tokens_into(&mut tokens, line)?;
    Ok(tokens)
}
