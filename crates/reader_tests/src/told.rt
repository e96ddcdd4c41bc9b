//! Lines that are told to entities, and their answers.
ghost use Rattle.std.specs.Prelude.{◌≡◌, List, IfOk};
ghost use Rattle.paje_lines.specs.EventLine.{EventLine};
ghost use Rattle.paje_model.specs.StandsFor.{IsOpen, StandsFor};

use crate::definitions::add_line;
use crate::rows::reason;
use paje_defs::DefTable;
use paje_lex::tokens;
use paje_lines::{Effect, ModelFault};
use paje_model::Entities;
use std::alloc::Global;
use std::test::Fail;
use trace_base::MAX_TRACE_LINE;

/// The definitions of all lines.
const DEFINITIONS: &str = "\
%EventDef PajeDefineContainerType 0, % Alias string, % Type string, % Name string, %EndEventDef, \
%EventDef PajeDefineStateType 1, % Alias string, % Type string, % Name string, %EndEventDef, \
%EventDef PajeCreateContainer 2, % Time date, % Alias string, % Type string, % Container string, \
% Name string, %EndEventDef, \
%EventDef PajeDestroyContainer 3, % Time date, % Type string, % Name string, %EndEventDef, \
%EventDef PajePushState 4, % Time date, % Type string, % Container string, % Value string, %EndEventDef, \
%EventDef PajePopState 5, % Time date, % Type string, % Container string, %EndEventDef, \
%EventDef PajeDefineLinkType 6, % Alias string, % Type string, % SourceContainerType string, \
% DestContainerType string, % Name string, %EndEventDef, \
%EventDef PajeStartLink 7, % Time date, % Type string, % Container string, % Value string, \
% SourceContainer string, % Key string, % Size int, %EndEventDef, \
%EventDef PajeEndLink 8, % Time date, % Type string, % Container string, % Value string, \
% DestContainer string, % Key string, %EndEventDef, \
%EventDef PajeSetState 9, % Time date, % Type string, % Container string, % Value string, %EndEventDef, \
%EventDef PajeResetState 10, % Time date, % Type string, % Container string, %EndEventDef, \
%EventDef PajeDefineEventType 11, % Alias string, % Type string, % Name string, %EndEventDef, \
%EventDef PajeDefineVariableType 12, % Alias string, % Type string, % Name string, %EndEventDef, \
%EventDef PajeDefineEntityValue 13, % Alias string, % Type string, % Name string, %EndEventDef, \
%EventDef PajeNewEvent 14, % Time date, %EndEventDef, \
%EventDef PajeDefineStateType 15, % Type string, % Name string, %EndEventDef, \
%EventDef PajeDefineEntityValue 16, % Type string, % Name string, %EndEventDef, \
%EventDef PajeCreateContainer 17, % Time date, % Type string, % Container string, % Name string, \
%EndEventDef, \
%EventDef PajeSetVariable 18, % Time date, % Type string, % Container string, % Value string, %EndEventDef, \
%EventDef PajeAddVariable 19, % Time date, %EndEventDef, \
%EventDef PajeSubVariable 20, % Time date, %EndEventDef";

/// Tells them to a table.
pub fn define_all(alloc: Global, table: &mut DefTable) -> Result<(), Fail> {
    let mut out = String::new(alloc);
    for line in DEFINITIONS.split(", ") {
        add_line(&mut out, alloc, table, line.as_bytes())?;
    }
    Ok(())
}

/// What entities answer to the `n`th line of their text.
pub fn answer(
    alloc: Global,
    definitions: &DefTable,
    entities: &mut Entities,
    n: u32,
    line: &str,
) -> Result<Result<Effect, ModelFault>, Fail>
    requires { IsOpen entities.old }
    ensures open { IfOk result (λ _. IsOpen entities.new) }
    ensures taken { IfOk result (λ answer. IfOk answer (λ _. (lines : List EventLine)
        × StandsFor lines entities.new)) }
{
    let line = line.as_bytes();
    if line.len() > MAX_TRACE_LINE {
        return Err(Fail::from("a long line"));
    }
    let read = tokens(alloc, line)?;
    let fields = definitions.event(line, read.as_slice())?;
    match entities.apply(n, &fields) {
        Ok(effect) => Ok(Ok(effect)),
        Err(unread) => Ok(Err(reason(unread)?)),
    }
}

/// Adds the answer to a line.
pub fn add_answer(out: &mut String, answer: Result<Effect, ModelFault>) -> Result<(), Fail> {
    match answer {
        Ok(effect) => write!(out, " {effect:?}")?,
        Err(fault) => write!(out, " {fault:?}")?,
    }
    Ok(())
}

fn add_row(out: &mut String, line: &str, answer: Result<Effect, ModelFault>) -> Result<(), Fail> {
    write!(out, "{line} =>")?;
    add_answer(out, answer)?;
    Ok(out.push_str("\n")?)
}

/// Tells entities the rows at the front of a text, whose lines are numbered from `first` on, and adds these
/// rows with their answers.
pub fn add_rows_told(
    out: &mut String,
    alloc: Global,
    definitions: &DefTable,
    entities: &mut Entities,
    first: u32,
    text: &str,
) -> Result<(), Fail>
    requires { IsOpen entities.old }
    ensures { IfOk result (λ _. IsOpen entities.new) }
{
    let mut n = first;
    for row in text.lines() {
        let Some((line, _)) = row.split_once(" =>") else {
            return Ok(());
        };
        let answer = answer(alloc, definitions, entities, n, line)?;
        add_row(out, line, answer)?;
        n = n.saturating_add(1);
    }
    Ok(())
}
