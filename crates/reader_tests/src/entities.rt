//! Small traces, told line by line. Their answers and what they say are worked by hand.
ghost use Rattle.std.specs.Prelude.{◌≡◌, List, IfOk, true};
ghost use Rattle.paje_lines.specs.EventLine.{EventLine};
ghost use Rattle.paje_model.specs.StandsFor.{IsOpen, StandsFor};

use crate::rows::add_rows;
use crate::told::{add_answer, add_rows_told, answer, define_all};
use crate::written::add_trace;
use paje_defs::DefTable;
use paje_lines::{Effect, ModelFault};
use paje_model::Entities;
use std::alloc::Global;
use std::process::Abort;
use std::test::Fail;

/// Main calls f twice, and its container is destroyed.
const TWO_CALLS: &str = "\
0 P 0 Process => Declared
1 S P State => Declared
2 0 p0 P 0 \"rank 0\" => Declared
4 0 S p0 main => Entered
4 0.1 S p0 f => Entered
5 0.2 S p0 => Left(1)
4 0.3 S p0 f => Entered
5 0.4 S p0 => Left(1)
5 0.5 S p0 => Left(1)
3 0.5 P p0 => Left(0)
end 500000000
container 0 500000000 0
container 0 500000000 rank 0
kind State
function main
function f
track 1 0
stream 0 500000000: [Enter(1, 0), Enter(2, 100000000), Leave(200000000), Enter(2, 300000000), \
Leave(400000000), Leave(500000000)]
";

/// A call that no line leaves, a container without a track, and one that is created behind them.
const OPEN_CALL: &str = "\
0 P 0 Process => Declared
1 S P State => Declared
2 0 p0 P 0 a => Declared
2 0 p1 P 0 b => Declared
4 0 S p0 main => Entered
2 2 p2 P 0 c => Declared
end 2000000000
container 0 2000000000 0
container 0 2000000000 a
container 0 2000000000 b
container 2000000000 2000000000 c
kind State
function main
track 1 0
stream 0 2000000000: [Enter(1, 0), Leave(2000000000)]
";

/// A call is left where none is open.
const EMPTY_POP: &str = "\
0 P 0 Process => Declared
1 S P State => Declared
2 0 p0 P 0 \"rank 0\" => Declared
5 0 S p0 => EmptyPop
5 0 S p0 => EmptyPop
4 0 S p0 f => EmptyPop
";

/// The name of a function has a blank.
const BLANK_NAME: &str = "\
0 P 0 Process => Declared
1 S P State => Declared
2 0 p0 P 0 \"rank 0\" => Declared
4 0 S p0 \"my func\" => Entered
end 0
container 0 0 0
container 0 0 rank 0
kind State
function my func
track 1 0
stream 0 0: [Enter(1, 0), Leave(0)]
";

/// And a second container of one alias.
const DOUBLE_ALIAS: &str = "\
0 P 0 Process => Declared
1 S P State => Declared
2 0 p0 P 0 \"rank 0\" => Declared
4 0 S p0 \"my func\" => Entered
2 0 p0 P 0 x => DoubleAlias(36)
4 0 S p0 f => DoubleAlias(36)
";

/// Messages; the second has no end, and the third ends before it starts.
const MESSAGES: &str = "\
0 P 0 Process => Declared
6 K P P P Msg => Declared
2 0 p0 P 0 a => Declared
2 0 p1 P 0 b => Declared
7 1 K 0 x p0 k1 100 => Linked
7 2 K 0 x p0 k1 50 => Linked
8 1.5 K 0 x p1 k1 => Linked
7 3 K 0 x p1 k2 7 => Linked
8 2.5 K 0 x p0 k2 => Linked
end 3000000000
container 0 3000000000 0
container 0 3000000000 a
container 0 3000000000 b
link Msg
send 0 k1 1 1000000000 100
send 0 k1 1 2000000000 50
receive 0 k1 2 1500000000 0
send 0 k2 2 3000000000 7
receive 0 k2 1 2500000000 0
";

/// One key of two link types; the root is named in both ways.
const LINK_TYPES: &str = "\
0 P 0 Process => Declared
6 K P P P Msg => Declared
6 L 0 P / Put => Declared
2 0 p0 P 0 a => Declared
7 1e-9 L 0 x p0 k 5 => Linked
7 2e-9 K 0 x / k 6 => Linked
8 3e-9 Put 0 x 0 k => Linked
end 3
container 0 3 0
container 0 3 a
link Msg
link Put
send 1 k 1 1 5
send 0 k 0 2 6
receive 1 k 0 3 0
";

/// Calls of two containers, and between them a message of each of two link types.
const CALLS_AND_MESSAGES: &str = "\
0 P 0 Process => Declared
1 S P State => Declared
6 K P P P Msg => Declared
6 L P P P Put => Declared
2 0 p0 P 0 a => Declared
2 0 p1 P 0 b => Declared
4 1e-9 S p0 main => Entered
4 2e-9 S p1 main => Entered
7 3e-9 K 0 x p0 k 5 => Linked
4 4e-9 S p0 f => Entered
7 5e-9 L 0 x p1 k 6 => Linked
8 6e-9 K 0 x p1 k => Linked
5 7e-9 S p0 => Left(1)
8 8e-9 L 0 x p0 k => Linked
5 9e-9 S p0 => Left(1)
5 9e-9 S p1 => Left(1)
3 9e-9 P p0 => Left(0)
3 10e-9 P p1 => Left(0)
end 10
container 0 10 0
container 0 9 a
container 0 10 b
kind State
link Msg
link Put
function main
function f
track 1 0
track 2 0
stream 0 9: [Enter(1, 1), Enter(2, 4), Leave(7), Leave(9)]
stream 0 10: [Enter(1, 2), Leave(9)]
send 0 k 1 3 5
send 1 k 2 5 6
receive 0 k 2 6 0
receive 1 k 1 8 0
";

/// Two state types and two containers of one name, then others whose alias is that name.
const TWINS: &str = "\
0 P 0 Process => Declared
1 S1 P State => Declared
1 S2 P State => Declared
2 0 p0 P 0 \"rank 0\" => Declared
2 0 p1 P 0 \"rank 0\" => Declared
4 1e-9 State \"rank 0\" f => Entered
4 2e-9 S2 p1 g => Entered
1 State P Other => Declared
2 0 \"rank 0\" P 0 x => Declared
4 3e-9 State \"rank 0\" f => Entered
4 4e-9 Other x h => Entered
4 5e-9 Other p0 h => Entered
end 5
container 0 5 0
container 0 5 rank 0
container 0 5 rank 0
container 0 5 x
kind State
kind State
kind Other
function f
function g
function h
track 1 0
track 2 1
track 3 2
track 1 2
stream 0 5: [Enter(1, 1), Leave(5)]
stream 0 5: [Enter(2, 2), Leave(5)]
stream 0 5: [Enter(1, 3), Enter(3, 4), Leave(5), Leave(5)]
stream 0 5: [Enter(3, 5), Leave(5)]
";

/// `0` and `/` are the root, as a type and as a container.
const ROOTS: &str = "\
0 P / Process => Declared
1 S / State => Declared
2 0 p0 / 0 a => Declared
2 0 p1 0 / b => Declared
9 1e-9 S / f => Entered
9 2e-9 S 0 g => Entered
end 2
container 0 2 0
container 0 2 a
container 0 2 b
kind State
function f
function g
track 0 0
stream 0 2: [Enter(1, 1), Leave(2), Enter(2, 2), Leave(2)]
";

/// One alias of values in two state types; values of a type of events; one without an alias; one that is
/// declared behind its use. They are entered by their aliases, by their names, and by other texts.
const VALUES: &str = "\
0 P 0 Process => Declared
1 S1 P State => Declared
1 S2 P Phase => Declared
11 V P Point => Declared
2 0 p0 P 0 a => Declared
4 1e-9 S1 p0 v => Entered
13 v S1 one => Declared
13 v S2 two => Declared
13 v V three => Dropped
13 v V three => Dropped
16 Phase four => Declared
4 2e-9 S1 p0 v => Entered
4 3e-9 S1 p0 one => Entered
4 4e-9 S2 p0 v => Entered
4 5e-9 S2 p0 two => Entered
4 6e-9 S1 p0 two => Entered
4 7e-9 S2 p0 three => Entered
4 8e-9 S2 p0 four => Entered
end 8
container 0 8 0
container 0 8 a
kind State
kind Phase
function v
function one
function two
function three
function four
track 1 0
track 1 1
stream 0 8: [Enter(1, 1), Enter(2, 2), Enter(2, 3), Enter(3, 6), Leave(8), Leave(8), Leave(8), Leave(8)]
stream 0 8: [Enter(3, 4), Enter(3, 5), Enter(4, 7), Enter(5, 8), Leave(8), Leave(8), Leave(8), Leave(8)]
";

/// States that are set and reset on empty and on deep stacks; an event behind a dropped line of a later time.
const STACK: &str = "\
0 P 0 Process => Declared
1 S P State => Declared
2 0 p0 P 0 a => Declared
10 0 S p0 => Left(0)
9 1e-9 S p0 a => Entered
4 2e-9 S p0 b => Entered
4 3e-9 S p0 a => Entered
9 4e-9 S p0 c => Entered
10 5e-9 S p0 => Left(1)
10 5e-9 S p0 => Left(0)
4 6e-9 S p0 d => Entered
4 7e-9 S p0 a => Entered
10 8e-9 S p0 => Left(2)
14 20e-9 => Dropped
4 9e-9 S p0 c => Entered
4 9e-9 S p0 b => Entered
end 20
container 0 20 0
container 0 20 a
kind State
function a
function b
function c
function d
track 1 0
stream 0 20: [Enter(1, 1), Enter(2, 2), Enter(1, 3), Leave(4), Leave(4), Leave(4), Enter(3, 4), \
Leave(5), Enter(4, 6), Enter(1, 7), Leave(8), Leave(8), Enter(3, 9), Enter(2, 9), Leave(20), Leave(20)]
";

/// Two tracks of one container, the one of the second state type first, and one of another container.
const TRACKS: &str = "\
0 P 0 Process => Declared
1 S P State => Declared
1 S2 P Phase => Declared
2 0 p0 P 0 a => Declared
2 1e-9 p1 P p0 b => Declared
4 2e-9 S p1 f => Entered
4 3e-9 S2 p0 g => Entered
4 4e-9 S p0 f => Entered
4 5e-9 S2 p0 f => Entered
10 6e-9 S b => Left(1)
3 8e-9 P a => Left(3)
14 9e-9 => Dropped
end 9
container 0 9 0
container 0 8 a
container 1 9 b
kind State
kind Phase
function f
function g
track 2 0
track 1 1
track 1 0
stream 1 9: [Enter(1, 2), Leave(6)]
stream 0 8: [Enter(2, 3), Enter(1, 5), Leave(8), Leave(8)]
stream 0 8: [Enter(1, 4), Leave(8)]
";

/// Tells entities the rows at the front of a text, adds these with their answers, and says whether none was
/// refused.
fn tell(
    out: &mut String,
    alloc: Global,
    definitions: &DefTable,
    entities: &mut Entities,
    text: &str,
) -> Result<bool, Fail>
    requires { IsOpen entities.old }
    ensures { IfOk result (λ taken. taken ≡ true → (lines : List EventLine)
        × StandsFor lines entities.new) }
{
    add_rows_told(out, alloc, definitions, entities, 34, text)?;
    match answer(alloc, definitions, entities, 0, "14 0")? {
        Ok(_) => Ok(true),
        Err(_) => Ok(false),
    }
}

/// The same of new entities; and what they say, if none was refused.
fn add_told(
    out: &mut String,
    alloc: Global,
    definitions: &DefTable,
    text: &str,
) -> Result<(), Fail> {
    let mut entities = Entities::new(alloc)?;
    match tell(out, alloc, definitions, &mut entities, text) {
        Ok(true) => {
            let trace = entities.finish()?;
            let added = add_trace(out, &trace);
            drop(trace);
            added
        }
        Ok(false) => {
            drop(entities);
            Ok(())
        }
        Err(fail) => {
            drop(entities);
            Err(fail)
        }
    }
}

const TRACES: [&str; 14] = [
    TWO_CALLS,
    OPEN_CALL,
    EMPTY_POP,
    BLANK_NAME,
    DOUBLE_ALIAS,
    MESSAGES,
    LINK_TYPES,
    CALLS_AND_MESSAGES,
    TWINS,
    ROOTS,
    VALUES,
    STACK,
    TRACKS,
    STAGE,
];

/// Traces are told as they stand.
fn are_told(
    rt: &impl Abort,
    alloc: Global,
    definitions: &mut DefTable,
    traces: &[&str],
) -> Result<(), Fail> {
    define_all(alloc, definitions)?;
    for text in traces {
        let mut out = String::new(alloc);
        add_told(&mut out, alloc, definitions, text)?;
        assert_eq!(rt; out.as_str(), *text);
    }
    Ok(())
}

#[test]
fn traces(rt: HostRuntime) -> Result<(), Fail> {
    let mut definitions = DefTable::new(rt.alloc());
    let told = are_told(&rt, rt.alloc(), &mut definitions, &TRACES);
    drop(definitions);
    told
}

/// A type of each sort, and three containers: the first has two tracks, and the third is destroyed.
const STAGE: &str = "\
0 P 0 Process => Declared
1 S P State => Declared
11 V P Point => Declared
6 K P P P Msg => Declared
1 S2 P Phase => Declared
2 5 p0 P 0 \"rank 0\" => Declared
2 5 p1 P 0 \"rank 1\" => Declared
2 5 p2 P p0 \"rank 2\" => Declared
4 10 S p0 main => Entered
9 30 S2 p0 begin => Entered
13 v S one => Declared
3 20 P p2 => Left(0)
end 30000000000
container 0 30000000000 0
container 5000000000 30000000000 rank 0
container 5000000000 30000000000 rank 1
container 5000000000 20000000000 rank 2
kind State
kind Phase
link Msg
function main
function begin
track 1 0
track 1 1
stream 5000000000 30000000000: [Enter(1, 10000000000), Leave(30000000000)]
stream 5000000000 30000000000: [Enter(2, 30000000000), Leave(30000000000)]
";

const TYPE_ROWS: &str = "\
1 T P State => Declared
15 / Thread => Declared
12 C / Counter => Declared
1 p0 P State => Declared
1 T Q State => UnknownEntity(Kind)
11 T S Point => WrongKind(Kind)
12 S P State => DoubleAlias(2)
15 P K => DoubleAlias(4)
0 / P x => DoubleAlias(0)
0 0 P x => DoubleAlias(0)
1 S Q State => UnknownEntity(Kind)
1 S K State => WrongKind(Kind)
6 L P 0 Process Put => Declared
6 L Q Q P Put => UnknownEntity(Kind)
6 L V Q P Put => WrongKind(Kind)
6 L P Q Q Put => UnknownEntity(FromKind)
6 L P V Q Put => WrongKind(FromKind)
6 K P P Q Put => UnknownEntity(ToKind)
6 K P P V Put => WrongKind(ToKind)
6 K P P P Put => DoubleAlias(4)
";

const VALUE_ROWS: &str = "\
13 w S one => Declared
13 v S2 one => Declared
13 v V one => Dropped
13 v Q one => UnknownEntity(Kind)
13 v P one => WrongKind(Kind)
13 v S two => DoubleAlias(11)
16 S v => DoubleAlias(11)
";

const CREATION_ROWS: &str = "\
2 1 p3 P p2 \"rank 0\" => Declared
2 1 P 0 / \"rank 0\" => Declared
2 1 p0 Q p0 x => UnknownEntity(Kind)
2 1 p3 S p9 x => WrongKind(Kind)
2 1 p0 P p9 x => UnknownEntity(Holder)
2 1 p2 P p0 x => DoubleAlias(8)
17 1 P p0 p1 => DoubleAlias(7)
2 1 / P p0 x => DoubleAlias(0)
2 1 0 P p0 x => DoubleAlias(0)
";

const DESTRUCTION_ROWS: &str = "\
3 30 P p0 => Left(2)
3 5 P \"rank 1\" => Left(0)
3 1 P p9 => UnknownEntity(Name)
3 1 P 0 => WrongKind(Name)
3 1 P / => WrongKind(Name)
3 1 P p2 => AfterDestroy(12)
3 40 P \"rank 2\" => AfterDestroy(12)
3 4 P p1 => TimeBack(5000000000)
3 29 P p0 => TimeBack(30000000000)
3 9 P p0 => TimeBack(30000000000)
";

const STATE_ROWS: &str = "\
4 10 S p0 f => Entered
5 10 S p0 => Left(1)
4 5 S p1 f => Entered
10 5 S p1 => Left(0)
9 0 S2 0 f => Entered
10 30 S2 p0 => Left(1)
4 1 Q p9 f => UnknownEntity(Kind)
5 1 V p9 => WrongKind(Kind)
10 1 S p9 => UnknownEntity(Holder)
9 1 S p2 f => AfterDestroy(12)
5 30 S2 p2 => AfterDestroy(12)
4 9 S p0 f => TimeBack(10000000000)
5 9 S p0 => TimeBack(10000000000)
5 4 S p1 => TimeBack(5000000000)
5 29 S2 p0 => TimeBack(30000000000)
5 5 S p1 => EmptyPop
";

const LINK_ROWS: &str = "\
7 1 K 0 x p2 k 1 => Linked
8 0 Msg 0 x / k => Linked
7 1 Q 0 x p9 k 1 => UnknownEntity(Kind)
8 1 S 0 x p9 k => WrongKind(Kind)
7 1 K 0 x p9 k 1 => UnknownEntity(From)
8 1 K 0 x p9 k => UnknownEntity(To)
14 0 => Dropped
18 0 Q p9 1 => Dropped
19 0 => Dropped
20 0 => Dropped
";

/// Adds the answer to a line; and that to a next one, which nothing could be against, unless a refusal stays.
fn add_answers(
    out: &mut String,
    alloc: Global,
    definitions: &DefTable,
    entities: &mut Entities,
    line: &str,
) -> Result<(), Fail>
    requires { IsOpen entities.old }
{
    let first = answer(alloc, definitions, entities, 90, line)?;
    let next = answer(alloc, definitions, entities, 91, "14 99")?;
    add_answer(out, first)?;
    if next != first.and(Ok(Effect::Dropped)) {
        add_answer(out, next)?;
    }
    Ok(())
}

/// Rounds of lines behind the stage, numbered from 0, whose number stands for `#`: how many are taken, and
/// what is against the next. The limits of state events and of link events take too many lines for a test.
const LIMIT_ROWS: &str = "\
4 30 S p0 f # => 255 Deep
1 T# P x => 4091 TooMany(Types)
13 v# S x => 65535 TooMany(Values)
2 5 c# P 0 x => 65532 TooMany(Containers)
2 5 c# P 0 x;10 30 S c# => 4094 TooMany(Tracks)
9 30 S p0 f# => 65534 TooMany(Functions)
";

/// Tells a round of lines, up to the first that is refused.
fn tell_round(
    alloc: Global,
    definitions: &DefTable,
    entities: &mut Entities,
    lines: &str,
) -> Result<Option<ModelFault>, Fail>
    requires { IsOpen entities.old }
    ensures { IfOk result (λ _. IsOpen entities.new) }
{
    for line in lines.split(';') {
        if let Err(fault) = answer(alloc, definitions, entities, 90, line)? {
            return Ok(Some(fault));
        }
    }
    Ok(None)
}

/// Adds how many rounds of these lines are taken, and what is against the next.
fn add_limit(
    out: &mut String,
    alloc: Global,
    definitions: &DefTable,
    entities: &mut Entities,
    lines: &str,
) -> Result<(), Fail>
    requires { IsOpen entities.old }
{
    for n in 0..100_000u32 {
        let number = format!(in alloc; "{n}")?;
        let round = lines.replace(alloc, "#", number.as_str())?;
        if let Some(fault) = tell_round(alloc, definitions, entities, round.as_str())? {
            return Ok(write!(out, " {n} {fault:?}")?);
        }
    }
    Ok(())
}

/// The same behind the stage. A line with `#` stands for rounds.
fn add_staged(
    out: &mut String,
    alloc: Global,
    definitions: &DefTable,
    entities: &mut Entities,
    line: &str,
) -> Result<(), Fail>
    requires { IsOpen entities.old }
{
    let mut stage = String::new(alloc);
    add_rows_told(&mut stage, alloc, definitions, entities, 1, STAGE)?;
    if line.contains('#') {
        add_limit(out, alloc, definitions, entities, line)
    } else {
        add_answers(out, alloc, definitions, entities, line)
    }
}

/// The same of new entities.
fn add_behind_stage(
    out: &mut String,
    alloc: Global,
    definitions: &DefTable,
    line: &str,
) -> Result<(), Fail> {
    let mut entities = Entities::new(alloc)?;
    let added = add_staged(out, alloc, definitions, &mut entities, line);
    drop(entities);
    added
}

const TABLES: [&str; 6] = [
    TYPE_ROWS,
    VALUE_ROWS,
    CREATION_ROWS,
    DESTRUCTION_ROWS,
    STATE_ROWS,
    LINK_ROWS,
];

/// Tables of lines behind the stage have their answers.
fn are_answered(
    rt: &impl Abort,
    alloc: Global,
    definitions: &mut DefTable,
    tables: &[&str],
) -> Result<(), Fail> {
    define_all(alloc, definitions)?;
    for rows in tables {
        let mut out = String::new(alloc);
        add_rows(&mut out, rows, |out, line| {
            add_behind_stage(out, alloc, definitions, line)
        })?;
        assert_eq!(rt; out.as_str(), *rows);
    }
    Ok(())
}

#[test]
fn lines_behind_the_stage(rt: HostRuntime) -> Result<(), Fail> {
    let mut definitions = DefTable::new(rt.alloc());
    let answered = are_answered(&rt, rt.alloc(), &mut definitions, &TABLES);
    drop(definitions);
    answered
}

#[test]
fn limits(rt: HostRuntime) -> Result<(), Fail> {
    let mut definitions = DefTable::new(rt.alloc());
    let answered = are_answered(&rt, rt.alloc(), &mut definitions, &[LIMIT_ROWS]);
    drop(definitions);
    answered
}
