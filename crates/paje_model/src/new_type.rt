//! A new type, of any sort.
ghost use Rattle.std.specs.Prelude.{◌≡◌, ◌<◌, ◌^◌, ◌||◌, ℕ, List, [], ◌∷◌, ◌++◌, Some, None, OnOk, find};
ghost use Rattle.std.specs.Prelude.{length};
ghost use Rattle.std.specs.Prelude.{is_some, true, if◌then◌else◌};
ghost use Rattle.paje_lines.specs.declared.effect.Effect.TheVariants.{Declared};
ghost use Rattle.paje_lines.specs.EventLine.{EventLine, alias_of, is_link_type, is_plain_type, line_of};
ghost use Rattle.paje_lines.specs.Found.{has_alias, rooted};
ghost use Rattle.paje_lines.specs.Reasons.{event_reason, new_type_reason};
ghost use Rattle.paje_lines.specs.Types.{sort_of, state_number};
ghost use Rattle.paje_model.specs.ValueTable.{AreNamed, values_kept};

use crate::found::{alias_of, text_of};
use crate::known::Known;
use crate::room::may_declare;
use crate::value_table::ValueTable;
use paje_defs::{EventName, Fields, Role};
use paje_lex::Unread;
use paje_lines::{Effect, ModelFault, TypeSort, What};
use trace_base::Memory;

/// A state type that is added has values of its own.
fn add_kind(values: &mut ValueTable, sort: TypeSort) -> Result<(), Memory>
    requires { AreNamed values.old }
    ensures values { OnOk result (values_kept values.new ≡ values_kept values.old
        ++ (if is_some (state_number sort) then [] ∷ [] else [])) }
    ensures named { OnOk result (AreNamed values.new) }
    ensures count { values.new.count ≡ values.old.count }
{
    match sort {
        TypeSort::State(_) => values.add_kind(),
        _ => Ok(()),
    }
}

impl Known {
    ghost use Rattle.paje_model.specs.EntityTable.{entities_in};
    ghost use Rattle.paje_model.specs.Finds.{Finds};
    ghost use Rattle.paje_model.specs.Known.{IsKnown, IsOfLines};
    ghost use Rattle.paje_model.specs.NewType.{AddsType};
    ghost use Rattle.paje_model.specs.Steps.{Takes};

    /// The alias of the line is new among the types, and there is room for one more.
    fn is_new_type(&self, fields: &Fields<'_>) -> Result<(), ModelFault>
        requires { IsOfLines self.now }
        ensures { (n : ℕ) (before : List EventLine) → IsKnown before self.now
            → Finds (new_type_reason before (line_of n fields.now)) (λ _. Unit {0}) result }
    {
        let declared = self.types.len() - 1;
        may_declare(self.types.line(alias_of(fields)), What::Types, declared)
    }

    /// The sort of the type that an event declares.
    fn declared_sort(&self, event: EventName) -> Option<TypeSort>
        requires { IsOfLines self.now }
        ensures { (before : List EventLine) → IsKnown before self.now → result ≡ sort_of before event }
    {
        match event {
            EventName::DefineContainerType => Some(TypeSort::Container),
            EventName::DefineStateType => Some(TypeSort::State(self.types.kinds() as u32)),
            EventName::DefineEventType => Some(TypeSort::Event),
            EventName::DefineVariableType => Some(TypeSort::Variable),
            EventName::DefineLinkType => Some(TypeSort::Link(self.types.link_kinds() as u32)),
            _ => None,
        }
    }

    /// Adds the type of a line. After `Memory` it may only be dropped.
    fn add_type(&mut self, n: u32, fields: &Fields<'_>, sort: TypeSort) -> Result<(), Memory>
        requires known { IsOfLines self.old }
        requires new { find (has_alias (rooted (alias_of (line_of n fields.now))))
            (entities_in self.old.types.entities) ≡ None }
        requires room { length (entities_in self.old.types.entities) < 2 ^ 32 }
        ensures { OnOk result (AddsType (line_of n fields.now) sort self.old self.new) }
    {
        add_kind(&mut self.values, sort)?;
        let alias = alias_of(fields);
        self.types.add(alias, text_of(fields, Role::Name), n, sort)
    }

    /// Declares the type of a line of which nothing else is amiss. After `Memory` it may only be dropped.
    pub fn declare_type(
        &mut self,
        n: u32,
        fields: &Fields<'_>,
    ) -> Result<Effect, Unread<ModelFault>>
        requires known { IsOfLines self.old }
        requires event { is_some (sort_of [] (line_of n fields.now).event) ≡ true }
        ensures { (before : List EventLine) → IsKnown before self.old
            → event_reason before (line_of n fields.now) ≡ new_type_reason before (line_of n fields.now)
            → Takes (record {
              before = before;
              line = line_of n fields.now;
              reason = new_type_reason before (line_of n fields.now);
              effect = Declared;
            }) self.new result }
    {
        self.is_new_type(fields)?;
        let sort = self.declared_sort(fields.kind()).unwrap();
        self.add_type(n, fields, sort)?;
        Ok(Effect::Declared)
    }
}
