//! Definition lines with their refusals, and whether a definition is open behind them; event lines with what
//! they tell: the event, its time and its size, and the text of each role that its definition has.
ghost use Rattle.std.specs.Prelude.{length};
ghost use Rattle.paje_lex.specs.LineGrammar.{StandIn};

use crate::rows::{add_rows, reason};
use crate::written::text_of;
use paje_defs::{DefTable, Fields, Role};
use paje_lex::{Token, is_definition, tokens};
use std::alloc::Global;
use std::process::Abort;
use std::test::Fail;
use trace_base::MAX_TRACE_LINE;

/// Definitions with all that their events need: one with twenty fields; and three of links' starts, whose
/// fields stand in different orders.
const DEFINED: &str = "\
%EventDef PajePushState 4 => inside
% Time date => inside
% Type string => inside
% Container string => inside
% Value string => inside
%EndEventDef =>
4 0.1 S p0 \"my func\" => PushState 100000000 0 Time=0.1 Kind=S Holder=p0 Value=my func
%EventDef PajeNewEvent 5 => inside
% Time string => inside
%EndEventDef =>
5 -1 => Date(Negative)
%EventDef PajeStartLink 6 => inside
% Time date => inside
% Type string => inside
% SourceContainer string => inside
% Key string => inside
% Size int => inside
%EndEventDef =>
6 1 K p0 k1 100 => StartLink 1000000000 100 Time=1 Kind=K Key=k1 From=p0 Size=100
%EventDef PajeStartLink 7 => inside
% Time date => inside
% Type string => inside
% StartContainer string => inside
% Key string => inside
% Size int => inside
%EndEventDef =>
%EventDef PajeStartLink 8 => inside
% Key string => inside
% Extra string => inside
% Size string => inside
% SourceContainer string => inside
% Type string => inside
% Time date => inside
%EndEventDef =>
7 0.5 K p0 k1 100 => StartLink 500000000 100 Time=0.5 Kind=K Key=k1 From=p0 Size=100
8 \"\" x 100 p1 L 0.25 => StartLink 250000000 0 Time=0.25 Kind=L Key= From=p1 Size=100
%EventDef PajePushState 9 => inside
% Time date => inside
% Type string => inside
% Container string => inside
% Value string => inside
% E5 string => inside
% E6 string => inside
% E7 string => inside
% E8 string => inside
% E9 string => inside
% E10 string => inside
% E11 string => inside
% E12 string => inside
% E13 string => inside
% E14 string => inside
% E15 string => inside
% E16 string => inside
% E17 string => inside
% E18 string => inside
% E19 string => inside
% E20 string => inside
%EndEventDef =>
9 0.5 S p0 f 5 6 7 8 9 10 11 12 13 14 15 16 17 18 19 => TooFew
9 0.5 S p0 f 5 6 7 8 9 10 11 12 13 14 15 16 17 18 19 20 => PushState 500000000 0 Time=0.5 Kind=S Holder=p0 \
Value=f
9 0.5 S p0 f 5 6 7 8 9 10 11 12 13 14 15 16 17 18 19 20 21 22 23 24 25 26 27 28 29 30 31 32 33 34 35 36 37 \
38 39 40 41 42 43 44 45 46 47 48 49 50 51 52 53 54 55 56 57 58 59 60 61 62 63 64 65 66 67 68 69 70 71 72 \
73 74 75 76 77 78 79 80 81 82 83 84 85 86 87 88 89 90 91 92 93 94 95 96 97 98 99 100 101 102 103 104 105 \
106 107 108 109 110 111 112 113 114 115 116 117 118 119 120 121 122 123 124 125 126 127 128 129 130 131 132 \
133 134 135 136 137 138 139 140 141 142 143 144 145 146 147 148 149 150 151 152 153 154 155 156 157 158 159 \
160 161 162 163 164 165 166 167 168 169 170 171 172 173 174 175 176 177 178 179 180 181 182 183 184 185 186 \
187 188 189 190 191 192 193 194 195 196 197 198 199 => PushState 500000000 0 Time=0.5 Kind=S Holder=p0 \
Value=f
";

/// Nothing is taken behind a refusal, and what was defined stays.
const REFUSED_INSIDE: &str = "\
%EventDef PajeNewEvent 1 => inside
% Time string => inside
%EndEventDef =>
%EventDef PajeNewEvent 2 => inside
% Time strange => UnknownType inside
%EndEventDef => UnknownType inside
2 0.5 => UnknownNumber
1 0.5 more => NewEvent 500000000 0 Time=0.5
";

const REFUSED_AT_ONCE: &str = "\
%EventDef PajeStrange 4 => UnknownName
%EventDef PajePopState 4 => UnknownName
";

const ROLES: [Role; 12] = [
    Role::Time,
    Role::Alias,
    Role::Kind,
    Role::Name,
    Role::Holder,
    Role::Value,
    Role::Key,
    Role::FromKind,
    Role::ToKind,
    Role::From,
    Role::To,
    Role::Size,
];

fn add_role(out: &mut String, fields: &Fields<'_>, role: Role) -> Result<(), Fail> {
    if let Some(text) = fields.text(role) {
        let text = text_of(text);
        write!(out, " {role:?}={text}")?;
    }
    Ok(())
}

fn add_fields(out: &mut String, fields: &Fields<'_>) -> Result<(), Fail> {
    let (kind, time, size) = (fields.kind(), fields.time(), fields.size());
    write!(out, " {kind:?} {time} {size}")?;
    for role in ROLES {
        add_role(out, fields, role)?;
    }
    Ok(())
}

fn add_event(out: &mut String, table: &DefTable, line: &[u8], tokens: &[Token]) -> Result<(), Fail>
    requires { StandIn (length line.now) tokens.now }
{
    match table.event(line, tokens) {
        Ok(fields) => add_fields(out, &fields),
        Err(fault) => Ok(write!(out, " {fault:?}")?),
    }
}

fn add_definition(
    out: &mut String,
    table: &mut DefTable,
    line: &[u8],
    tokens: &[Token],
) -> Result<(), Fail>
    requires { StandIn (length line.now) tokens.now }
{
    if let Err(unread) = table.line(1, line, tokens) {
        write!(out, " {:?}", reason(unread)?)?;
    }
    if table.is_inside() {
        out.push_str(" inside")?;
    }
    Ok(())
}

/// Adds what a table tells of a line.
pub fn add_line(
    out: &mut String,
    alloc: Global,
    table: &mut DefTable,
    line: &[u8],
) -> Result<(), Fail> {
    if line.len() > MAX_TRACE_LINE {
        return Err(Fail::from("a long line"));
    }
    let read = tokens(alloc, line)?;
    if is_definition(line) {
        add_definition(out, table, line, read.as_slice())
    } else {
        add_event(out, table, line, read.as_slice())
    }
}

/// The rows of a table of lines that are told to new definitions, with their answers.
fn told(alloc: Global, rows: &str) -> Result<String, Fail> {
    let mut out = String::new(alloc);
    let mut table = DefTable::new(alloc);
    add_rows(&mut out, rows, |out, line| {
        add_line(out, alloc, &mut table, line.as_bytes())
    })?;
    Ok(out)
}

/// The rows of tables are told as they stand.
fn are_told(rt: &impl Abort, alloc: Global, tables: &[&str]) -> Result<(), Fail> {
    for rows in tables {
        let told = told(alloc, rows)?;
        assert_eq!(rt; told.as_str(), *rows);
    }
    Ok(())
}

#[test]
fn lines_told(rt: HostRuntime) -> Result<(), Fail> {
    are_told(&rt, rt.alloc(), &[DEFINED, REFUSED_INSIDE, REFUSED_AT_ONCE])
}
