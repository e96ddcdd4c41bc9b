//! Whole texts. What they say and why they are refused is worked by hand.
use crate::rows::add_rows;
use crate::written::add_trace;
use paje_reader::{ReadFault, ReadRefusal, read_trace};
use std::alloc::Global;
use std::process::Abort;
use std::test::Fail;
use trace_base::MAX_TEXT;

/// Adds why a text is refused, where it is: the line and the reason.
fn add_refusal(out: &mut String, alloc: Global, text: &[u8]) -> Result<(), Fail> {
    if text.len() as u64 > MAX_TEXT {
        return Err(Fail::from("a long text"));
    }
    match read_trace(alloc, text) {
        Ok(trace) => {
            drop(trace);
            out.push_str(" taken")?;
        }
        Err(ReadFault::Refused(ReadRefusal { line, why })) => write!(out, " {line} {why:?}")?,
        Err(ReadFault::Memory) => return Err(Fail::from("no memory")),
    }
    Ok(())
}

/// What lines stand between. They have `;` in place of a newline, and `~` in place of as many `a` as make
/// them `len` bytes.
#[derive(Clone, Copy)]
struct Frame<'a> {
    front: &'a str,
    len: usize,
    end: &'a str,
}

/// Lines with the bytes that stand for others replaced.
fn replaced(alloc: Global, lines: &str, len: usize) -> Result<String, Fail> {
    let fill = "a".repeat(alloc, len.saturating_add(1).saturating_sub(lines.len()))?;
    let filled = lines.replace(alloc, "~", fill.as_str())?;
    Ok(filled.as_str().replace(alloc, ";", "\n")?)
}

/// Adds why lines in a frame are refused, where they are.
fn add_refusal_within(
    out: &mut String,
    alloc: Global,
    frame: &Frame<'_>,
    lines: &str,
) -> Result<(), Fail> {
    let lines = replaced(alloc, lines, frame.len)?;
    let (front, end) = (frame.front, frame.end);
    let text = format!(in alloc; "{front}{lines}{end}")?;
    add_refusal(out, alloc, text.as_str().as_bytes())
}

/// The rows of a table of such lines tell why they are refused, where they are.
fn are_right(rt: &impl Abort, alloc: Global, frame: &Frame<'_>, rows: &str) -> Result<(), Fail> {
    let mut out = String::new(alloc);
    add_rows(&mut out, rows, |out, lines| {
        add_refusal_within(out, alloc, frame, lines)
    })?;
    assert_eq!(rt; out.as_str(), rows);
    Ok(())
}

/// They do so for lines at the end of a text, without and with a newline, and before two lines that are
/// refused too.
fn are_refused(
    rt: &impl Abort,
    alloc: Global,
    front: &str,
    len: usize,
    rows: &str,
) -> Result<(), Fail> {
    for end in ["", "\n", "\n%\nx\n"] {
        are_right(rt, alloc, &Frame { front, len, end }, rows)?;
    }
    Ok(())
}

/// Lines of which the last is refused, some of them for two reasons.
const SMALL_ROWS: &str = "\
a \"b => 1 OpenQuote(2)
% => 1 Shape
% Time date => 1 Shape
%EventDef PajeNewEvent => 1 Shape
%EventDef PajeNewEvent 4294967296 => 1 Shape
%EventDef PajeStrange 4 => 1 UnknownName
x => 1 NoNumber
4294967296 => 1 NoNumber
4 => 1 UnknownNumber
4\r => 1 UnknownNumber
4\r\r => 1 NoNumber
% \" => 1 OpenQuote(2)
%EventDef PajeNewEvent 4;%EventDef PajePopState 5 => 2 Nested
%EventDef PajeNewEvent 4;% Time strange => 2 UnknownType
%EventDef PajeNewEvent 4;% Time => 2 Shape
%EventDef PajeNewEvent 4;%EndEventDef => 2 MissingField(Time)
%EventDef PajeNewEvent 4;4 0 => 2 Unended
%EventDef PajeNewEvent 9;x => 2 Unended
%EventDef PajeNewEvent 9;%EventDef PajeStrange x => 2 Shape
%EventDef PajeNewEvent 9;%EventDef PajeStrange 9 => 2 Nested
%EventDef PajeNewEvent 4;% Time date;%EndEventDef;a \"b => 4 OpenQuote(2)
%EventDef PajeNewEvent 4;% Time date;%EndEventDef;%EventDef PajeStrange 5 => 4 UnknownName
%EventDef PajeNewEvent 4;% Time date;%EndEventDef;%EventDef PajePopState 4 => 4 DoubleNumber(1)
%EventDef PajeNewEvent 4;% Time date;%EndEventDef;%EndEventDef => 4 Shape
%EventDef PajeNewEvent 4;% Time date;%EndEventDef;x => 4 NoNumber
%EventDef PajeNewEvent 4;% Time date;%EndEventDef;5 0 => 4 UnknownNumber
%EventDef PajeNewEvent 4;% Time date;%EndEventDef;4 => 4 TooFew
%EventDef PajeNewEvent 4;% Time date;%EndEventDef;4 x => 4 DateShape
%EventDef PajeNewEvent 4;% Time date;%EndEventDef;4 -1 => 4 DateNegative
%EventDef PajeNewEvent 4;% Time date;%EndEventDef;4 4611686018.427387905 => 4 DateBig
";

/// The definitions of six events and two types, on 35 lines.
const HEAD: &str = "\
%EventDef PajeDefineContainerType 0\n% Alias string\n% Type string\n% Name string\n%EndEventDef\n\
%EventDef PajeDefineStateType 1\n% Alias string\n% Type string\n% Name string\n%EndEventDef\n\
%EventDef PajeCreateContainer 2\n% Time date\n% Alias string\n% Type string\n% Container string\n\
% Name string\n%EndEventDef\n%EventDef PajeDestroyContainer 3\n% Time date\n% Type string\n\
% Name string\n%EndEventDef\n%EventDef PajePushState 4\n% Time date\n% Type string\n\
% Container string\n% Value string\n%EndEventDef\n%EventDef PajePopState 5\n% Time date\n\
% Type string\n% Container string\n%EndEventDef\n0 P 0 Process\n1 S P State\n";

/// Lines behind the head, the last of them refused, some of them for two reasons.
const HEAD_ROWS: &str = "\
2 0 p0 Q 0 a => 36 UnknownEntity(Kind)
2 0 p0 P p9 a => 36 UnknownEntity(Holder)
2 0 p0 S 0 a => 36 WrongKind(Kind)
3 0 P 0 => 36 WrongKind(Name)
1 P P Other => 36 DoubleAlias(34)
2 0 / P 0 a => 36 DoubleAlias(0)
2 0 p0 P 0 a;5 0 S p0 => 37 EmptyPop
2 0 p0 P 0 a;3 1 P p0;4 1 S p0 f => 38 AfterDestroy(37)
2 1 p0 P 0 a;4 2 S p0 f;4 1.5 S p0 f => 38 TimeBack(2000000000)
%EventDef PajeStrange 4 => 36 UnknownName
2 x p0 P 0 => 36 TooFew
2 x p0 Q 0 a => 36 DateShape
2 0 / Q p9 a => 36 UnknownEntity(Kind)
2 0 / P p9 a => 36 UnknownEntity(Holder)
1 P S x => 36 WrongKind(Kind)
";

#[test]
fn refused_lines(rt: HostRuntime) -> Result<(), Fail> {
    are_refused(&rt, rt.alloc(), "", 0, SMALL_ROWS)?;
    are_refused(&rt, rt.alloc(), HEAD, 0, HEAD_ROWS)
}

/// Definitions that are open at the end of a text, and lines that are skipped and counted.
const WHOLE_ROWS: &str = "\
%EventDef PajeNewEvent 4 => 2 Unended
%EventDef PajeNewEvent 4; => 2 Unended
%EventDef PajeNewEvent 4;; => 3 Unended
%EventDef PajeNewEvent 4;% Time date;# a => 4 Unended
;%EventDef PajeNewEvent 4\r;% Time date\r;\r; => 5 Unended
;;x => 3 NoNumber
# a \"; \t\r;\t#\r;\r;x;y; => 5 NoNumber
\r;;;;;;;;;; x => 11 NoNumber
";

#[test]
fn whole_texts(rt: HostRuntime) -> Result<(), Fail> {
    let frame = Frame {
        front: "",
        len: 0,
        end: "",
    };
    are_right(&rt, rt.alloc(), &frame, WHOLE_ROWS)
}

/// The head and a container, behind which so many lines stand, each with its number in it.
fn repeated(alloc: Global, begin: &str, end: &str, count: u32) -> Result<String, Fail> {
    let mut text = format!(in alloc; "{HEAD}2 0 p0 P 0 a\n")?;
    for n in 0..count {
        writeln!(text, "{begin}{n}{end}")?;
    }
    Ok(text)
}

const DEEP_ROWS: &str = "4 0 S p0 f => 293 Deep\n";

/// The head has two types, and a trace at most 4,096.
const TYPE_ROWS: &str = "1 t P x => 4131 TooMany(Types)\n";

const TAKEN_ROWS: &str = " => taken\n";

/// So many lines behind the head and a container are taken.
fn are_taken(
    rt: &impl Abort,
    alloc: Global,
    begin: &str,
    end: &str,
    count: u32,
) -> Result<(), Fail> {
    let text = repeated(alloc, begin, end, count)?;
    let frame = Frame {
        front: text.as_str(),
        len: 0,
        end: "",
    };
    are_right(rt, alloc, &frame, TAKEN_ROWS)
}

/// Behind them lines are refused.
fn are_many(
    rt: &impl Abort,
    alloc: Global,
    begin: &str,
    end: &str,
    count: u32,
    rows: &str,
) -> Result<(), Fail> {
    let text = repeated(alloc, begin, end, count)?;
    are_refused(rt, alloc, text.as_str(), 0, rows)
}

#[test]
fn as_many_as_may_be(rt: HostRuntime) -> Result<(), Fail> {
    are_taken(&rt, rt.alloc(), "4 0 S p0 f", "", 255)?;
    are_taken(&rt, rt.alloc(), "4 0 S p0 f", "", 256)?;
    are_many(&rt, rt.alloc(), "4 0 S p0 f", "", 256, DEEP_ROWS)?;
    are_taken(&rt, rt.alloc(), "1 t", " P x", 4_094)?;
    are_many(&rt, rt.alloc(), "1 t", " P x", 4_094, TYPE_ROWS)
}

// The reason that is looked for earlier is told.
#[test]
fn not_text(rt: HostRuntime) -> Result<(), Fail> {
    let alloc = rt.alloc();
    let mut out = String::new(alloc);
    add_refusal(&mut out, alloc, b"a\xff")?;
    add_refusal(&mut out, alloc, b"#\xff\n\xc3\xa9\xc3")?;
    add_refusal(&mut out, alloc, b"# a\n%\xff\nx\n")?;
    add_refusal(&mut out, alloc, b" #\xff\"\n")?;
    add_refusal(&mut out, alloc, b"\"\xff")?;
    assert_eq!(rt;
        out.as_str(),
        " 1 NotText(1) 2 NotText(2) 2 NotText(1) taken 1 NotText(1)"
    );
    Ok(())
}

/// A definition on three lines.
const DEFINED: &str = "%EventDef PajeNewEvent 4\n% Time date\n%EndEventDef\n";

/// Lines of 65,536 bytes.
const LONGEST_ROWS: &str = "\
#~ => taken
#~\r => taken
4 0 ~ => taken
4 0 ~\r => taken
#~ \"\t => taken
";

/// Lines of 65,537 bytes behind the definition.
const LONGER_ROWS: &str = "\
#~ => 4 LongLine
#~\r => 4 LongLine
4 0 ~ => 4 LongLine
4 0 ~\r => 4 LongLine
#~ \"\t => 4 LongLine
";

/// First lines of 65,537 bytes.
const LONG_FIRST_ROWS: &str = "\
#~ => 1 LongLine
#~\r => 1 LongLine
4 0 ~ => 1 LongLine
4 0 ~\r => 1 LongLine
#~ \"\t => 1 LongLine
\"~ => 1 LongLine
";

#[test]
fn longest_lines(rt: HostRuntime) -> Result<(), Fail> {
    let frame = Frame {
        front: DEFINED,
        len: 65_536,
        end: "\n4 1\n",
    };
    are_right(&rt, rt.alloc(), &frame, LONGEST_ROWS)?;
    are_refused(&rt, rt.alloc(), DEFINED, 65_537, LONGER_ROWS)?;
    are_refused(&rt, rt.alloc(), "", 65_537, LONG_FIRST_ROWS)
}

/// Adds what a text says.
fn add_said(out: &mut String, alloc: Global, text: &[u8]) -> Result<(), Fail> {
    if text.len() as u64 > MAX_TEXT {
        return Err(Fail::from("a long text"));
    }
    let trace = read_trace(alloc, text)?;
    let added = add_trace(out, &trace);
    drop(trace);
    added
}

/// A front and lines behind it say this.
fn is_said(
    rt: &impl Abort,
    alloc: Global,
    front: &str,
    lines: &str,
    wanted: &str,
) -> Result<(), Fail> {
    let text = format!(in alloc; "{front}{lines}")?;
    let mut out = String::new(alloc);
    add_said(&mut out, alloc, text.as_str().as_bytes())?;
    assert_eq!(rt; out.as_str(), wanted);
    Ok(())
}

/// Main runs for half a second, and calls f twice.
const CALLS: &str = "\
2 0 p0 P 0 \"rank 0\"\n4 0 S p0 main\n4 0.1 S p0 f\n5 0.2 S p0\n4 0.3 S p0 f\n5 0.4 S p0\n\
5 0.5 S p0\n3 0.5 P p0\n";

const CALLS_SAID: &str = "\
end 500000000
container 0 500000000 0
container 0 500000000 rank 0
kind State
function main
function f
track 1 0
stream 0 500000000: [Enter(1, 0), Enter(2, 100000000), Leave(200000000), Enter(2, 300000000), \
Leave(400000000), Leave(500000000)]
";

/// Definitions with tabs, lines that are skipped, and carriage returns: two of PushState, the second with
/// one more field, and one of DestroyContainer without a name.
const SPACED_HEAD: &str = "\
# a trace\r\n%EventDef\tPajeDefineContainerType\t0\r\n%\tAlias\tstring\r\n% Type string\r\n\
% Name string\r\n%EndEventDef\r\n\n\t%EventDef  PajeDefineStateType 1\n% Alias string\n\
%\tType string\n# \"\n% Name string\n%EndEventDef\n%EventDef PajeCreateContainer 2\n% Time date\n\
% Alias string\n% Type string\n% Container string\n% Name string\n%EndEventDef\n\
%EventDef PajePushState 3\n% Time date\n% Type string\n% Container string\n% Value string\n\
%EndEventDef\n%EventDef PajePushState 4\n% Time date\n% Line int\n% Type string\n\
% Container string\n% Value string\n%EndEventDef\n%EventDef PajeSetState 5\n% Time date\n\
% Type string\n% Container string\n% Value string\n%EndEventDef\n%EventDef PajeResetState 6\n\
% Time date\n% Type string\n% Container string\n%EndEventDef\n%EventDef PajeDestroyContainer 7\n\
% Time date\n% Type string\n% Container string\n%EndEventDef \t\r\n0 P 0 Process\r\n1\tS\tP\tState\n";

/// States that are set.
const SET: &str = "\
2 0 p0 P 0 \"rank 0\"\r\n5 0\tS p0 main\r\n\t5 0.2 S p0\tf\n  # 5 0.3 S p0 g\n6 0.5 S p0\n7 1 P p0";

const SET_SAID: &str = "\
end 1000000000
container 0 1000000000 0
container 0 1000000000 rank 0
kind State
function main
function f
track 1 0
stream 0 1000000000: [Enter(1, 0), Leave(200000000), Enter(2, 200000000), Leave(500000000)]
";

/// States under two definitions.
const PUSHED: &str = "\
2 0 p0 P 0 a\n3 0 S p0 f 7\r\n4 0.1 17 S p0 g\r\n4 1e-1 \"\" S p0 \"f\"\n6 0.5 S p0\n7 1 P p0\n";

const PUSHED_SAID: &str = "\
end 1000000000
container 0 1000000000 0
container 0 1000000000 a
kind State
function f
function g
track 1 0
stream 0 1000000000: [Enter(1, 0), Enter(2, 100000000), Enter(1, 100000000), Leave(500000000), \
Leave(500000000), Leave(500000000)]
";

/// Definitions of link events behind the others; then calls of two containers, and a message from each to the
/// other, of which the second is received before it is sent.
const MESSAGES: &str = "\
%EventDef PajeDefineLinkType 6\n% Alias string\n% Type string\n% SourceContainerType string\n\
% DestContainerType string\n% Name string\n%EndEventDef\n%EventDef PajeStartLink 7\n% Time date\n\
% Type string\n% Container string\n% Value string\n% SourceContainer string\n% Key string\n\
% Size int\n%EndEventDef\n%EventDef PajeEndLink 8\n% Time date\n% Type string\n% Container string\n\
% Value string\n% DestContainer string\n% Key string\n%EndEventDef\n6 K P P P Msg\n2 0 p0 P 0 a\n\
2 0 p1 P 0 b\n4 0.5 S p0 main\n7 1 K 0 x p0 k1 100\n4 1.5 S p1 main\n8 1.5 K 0 x p1 k1\n\
4 2 S p0 f\n7 3 K 0 x p1 k2 7\n8 2.5 K 0 x p0 k2\n5 3 S p0\n5 3 S p0\n5 3 S p1\n";

const MESSAGES_SAID: &str = "\
end 3000000000
container 0 3000000000 0
container 0 3000000000 a
container 0 3000000000 b
kind State
link Msg
function main
function f
track 1 0
track 2 0
stream 0 3000000000: [Enter(1, 500000000), Enter(2, 2000000000), Leave(3000000000), Leave(3000000000)]
stream 0 3000000000: [Enter(1, 1500000000), Leave(3000000000)]
send 0 k1 1 1000000000 100
receive 0 k1 2 1500000000 0
send 0 k2 2 3000000000 7
receive 0 k2 1 2500000000 0
";

#[test]
fn traces_of_texts(rt: HostRuntime) -> Result<(), Fail> {
    is_said(&rt, rt.alloc(), HEAD, CALLS, CALLS_SAID)?;
    is_said(&rt, rt.alloc(), SPACED_HEAD, SET, SET_SAID)?;
    is_said(&rt, rt.alloc(), SPACED_HEAD, PUSHED, PUSHED_SAID)?;
    is_said(&rt, rt.alloc(), HEAD, MESSAGES, MESSAGES_SAID)
}

#[test]
fn bytes_of_the_first_text(rt: HostRuntime) {
    assert_eq!(rt; HEAD.len().saturating_add(CALLS.len()), 697);
}

/// What each of four texts without lines that count says.
const NOTHING_SAID: &str = "\
end 0
container 0 0 0
end 0
container 0 0 0
end 0
container 0 0 0
end 0
container 0 0 0
";

#[test]
fn texts_that_say_nothing(rt: HostRuntime) -> Result<(), Fail> {
    let mut out = String::new(rt.alloc());
    add_said(&mut out, rt.alloc(), b"")?;
    add_said(&mut out, rt.alloc(), b"\n")?;
    add_said(&mut out, rt.alloc(), b"# a")?;
    add_said(&mut out, rt.alloc(), b"\r\n \t\n")?;
    assert_eq!(rt; out.as_str(), NOTHING_SAID);
    Ok(())
}
