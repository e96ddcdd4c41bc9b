//! Tokens, dates and kinds of lines.
use crate::rows::{add_rows, reason};
use paje_lex::{Token, date, is_definition, is_skipped, tokens, tokens_into};
use std::alloc::Global;
use std::test::Fail;
use trace_base::{MAX_TRACE_LINE, Seq};

/// Lines, and where their tokens stand.
const LINES: &str = "\
4 0.1\tS \"my func\"p0 => 0-1 2-5 6-7 9-16 17-19
 %EventDef PajePopState 5 => 2-10 11-23 24-25
a \"b => OpenQuote(2)
5 0.1 s0 \"my func\" => 0-1 2-5 6-8 10-17
ab => 0-2
 \t =>
a b \"c => OpenQuote(4)
% de => 2-4
";

/// Adds where the tokens of a line stand, by a list that is used again.
fn add_tokens(out: &mut String, list: &mut Seq<Token>, line: &[u8]) -> Result<(), Fail> {
    if line.len() > MAX_TRACE_LINE {
        return Err(Fail::from("a long line"));
    }
    match tokens_into(list, line) {
        Ok(()) => {
            for token in list.as_slice() {
                write!(out, " {}-{}", token.from, token.to)?;
            }
        }
        Err(unread) => write!(out, " {:?}", reason(unread)?)?,
    }
    Ok(())
}

#[test]
fn tokens_of_lines(rt: HostRuntime) -> Result<(), Fail> {
    let mut out = String::new(rt.alloc());
    let mut list = Seq::new(rt.alloc());
    add_rows(&mut out, LINES, |out, line| {
        add_tokens(out, &mut list, line.as_bytes())
    })?;
    assert_eq!(rt; out.as_str(), LINES);
    Ok(())
}

#[test]
fn list_used_behind_bytes_that_are_no_text(rt: HostRuntime) -> Result<(), Fail> {
    let mut out = String::new(rt.alloc());
    let mut list = Seq::new(rt.alloc());
    add_tokens(&mut out, &mut list, b"a \xff")?;
    add_tokens(&mut out, &mut list, b"a \xc3")?;
    add_tokens(&mut out, &mut list, b"a \xc3\xa9")?;
    assert_eq!(rt; out.as_str(), " NotText(2) NotText(2) 0-1 2-4");
    Ok(())
}

/// Adds how many tokens a line has, and the last; or why it has none.
fn add_last(out: &mut String, alloc: Global, line: &[u8]) -> Result<(), Fail> {
    if line.len() > MAX_TRACE_LINE {
        return Err(Fail::from("a long line"));
    }
    match tokens(alloc, line) {
        Ok(list) => writeln!(out, "{} {:?}", list.len(), list.as_slice().last())?,
        Err(unread) => writeln!(out, "{:?}", reason(unread)?)?,
    }
    Ok(())
}

/// The same of a line of 5,000 bytes, all of them `a` but a space and the byte at the place 4,000 behind it.
fn add_last_behind(out: &mut String, alloc: Global, byte: u8) -> Result<(), Fail> {
    let mut line = vec![in alloc; b'a'; 5_000]?;
    line[3_999] = b' ';
    line[4_000] = byte;
    add_last(out, alloc, line.as_slice())
}

/// The same of a line of so many tokens of one byte, with a space before each.
fn add_last_of_many(out: &mut String, alloc: Global, count: usize) -> Result<(), Fail> {
    let line = " a".repeat(alloc, count)?;
    add_last(out, alloc, line.as_str().as_bytes())
}

const LONG_LINES: &str = "\
200 Some(Token { from: 399, to: 400 })
32768 Some(Token { from: 65535, to: 65536 })
NotText(4000)
OpenQuote(4000)
2 Some(Token { from: 4000, to: 5000 })
";

#[test]
fn long_lines(rt: HostRuntime) -> Result<(), Fail> {
    let alloc = rt.alloc();
    let mut out = String::new(alloc);
    add_last_of_many(&mut out, alloc, 200)?;
    add_last_of_many(&mut out, alloc, 32_768)?;
    add_last_behind(&mut out, alloc, 0xff)?;
    add_last_behind(&mut out, alloc, b'"')?;
    add_last_behind(&mut out, alloc, b'b')?;
    assert_eq!(rt; out.as_str(), LONG_LINES);
    Ok(())
}

/// Texts, and the nanoseconds that they mean as dates. Those behind the fifth are short, or nearly.
const DATES: &str = "\
1e-05 => 10000
4611686018.427387904 => 4611686018427387904
4611686018.4273879040000000001 => Big
-1e-30 => Negative
1e31 => Shape
12.345678901 => 12345678901
12.3456789019 => 12345678901
007.5 => 7500000000
1. => 1000000000
461168601.842738790 => 461168601842738790
46116860184.2738790 => Big
1.5e1 => 15000000000
1.5x => Shape
1.5.5 => Shape
. => Shape
";

fn add_date(out: &mut String, text: &str) -> Result<(), Fail> {
    match date(text.as_bytes()) {
        Ok(time) => write!(out, " {time}")?,
        Err(fault) => write!(out, " {fault:?}")?,
    }
    Ok(())
}

#[test]
fn dates(rt: HostRuntime) -> Result<(), Fail> {
    let mut out = String::new(rt.alloc());
    add_rows(&mut out, DATES, |out, text| add_date(out, text))?;
    assert_eq!(rt; out.as_str(), DATES);
    Ok(())
}

#[test]
fn kinds_of_lines(rt: HostRuntime) {
    assert!(rt; is_skipped(b" \t"));
    assert!(rt; is_skipped(b" # a"));
    assert!(rt; !is_skipped(b"a #"));
    assert!(rt; is_definition(b"\t%a"));
    assert!(rt; !is_definition(b"a %"));
}
