//! What the texts of a line find.
ghost use Rattle.std.specs.Prelude.{◌≡◌, ℕ, List, Some, not, is_some, option_map};
ghost use Rattle.std.specs.Option.{option_and_then};
ghost use Rattle.paje_defs.specs.declared.role.Role.TheVariants.{Kind};
ghost use Rattle.paje_lines.specs.EventLine.{EventLine, alias_of, line_of, text_of};
ghost use Rattle.paje_lines.specs.Types.{is_container_type, kind_named, link_kind_named, link_number};
ghost use Rattle.paje_lines.specs.Types.{state_number, type_named};
ghost use Rattle.paje_lines.specs.Containers.{container_named};
ghost use Rattle.paje_lines.specs.Reasons.{container_reason, sort_reason, type_reason};
ghost use Rattle.paje_model.specs.Finds.{Finds};

use crate::known::Known;
use paje_defs::{Fields, Role};
use paje_lines::{ModelFault, TypeSort};

/// The text of a role that the line's event needs.
pub fn text_of<'a>(fields: &Fields<'a>, role: Role) -> &'a [u8]
    ensures { (n : ℕ) → result.now ≡ text_of (line_of n fields.now) role }
{
    match fields.text(role) {
        Some(text) => text,
        None => b"",
    }
}

/// The alias that the line gives, else its name.
pub fn alias_of<'a>(fields: &Fields<'a>) -> &'a [u8]
    ensures { (n : ℕ) → result.now ≡ alias_of (line_of n fields.now) }
{
    match fields.text(Role::Alias) {
        Some(alias) => alias,
        None => text_of(fields, Role::Name),
    }
}

/// A type of containers was found.
fn only_containers(sort: Option<TypeSort>, role: Role) -> Result<(), ModelFault>
    ensures { Finds (sort_reason is_container_type role sort) (λ _. Unit {0}) result }
{
    match sort {
        None => Err(ModelFault::UnknownEntity(role)),
        Some(sort) => match sort {
            TypeSort::Container => Ok(()),
            _ => Err(ModelFault::WrongKind(role)),
        },
    }
}

/// The number of the state type that was found.
fn only_states(sort: Option<TypeSort>, role: Role) -> Result<u32, ModelFault>
    ensures { Finds (sort_reason (λ sort. is_some (state_number sort)) role sort)
        (λ kind. option_and_then state_number sort ≡ Some kind) result }
{
    match sort {
        None => Err(ModelFault::UnknownEntity(role)),
        Some(sort) => match sort {
            TypeSort::State(kind) => Ok(kind),
            _ => Err(ModelFault::WrongKind(role)),
        },
    }
}

/// The number of the link type that was found.
fn only_links(sort: Option<TypeSort>, role: Role) -> Result<u32, ModelFault>
    ensures { Finds (sort_reason (λ sort. is_some (link_number sort)) role sort)
        (λ kind. option_and_then link_number sort ≡ Some kind) result }
{
    match sort {
        None => Err(ModelFault::UnknownEntity(role)),
        Some(sort) => match sort {
            TypeSort::Link(kind) => Ok(kind),
            _ => Err(ModelFault::WrongKind(role)),
        },
    }
}

/// A type that isn't one of containers was found: the number of a state type, `None` for another sort.
fn no_containers(sort: Option<TypeSort>, role: Role) -> Result<Option<u32>, ModelFault>
    ensures { Finds (sort_reason (λ sort. not (is_container_type sort)) role sort)
        (λ kind. option_and_then state_number sort ≡ kind) result }
{
    match sort {
        None => Err(ModelFault::UnknownEntity(role)),
        Some(sort) => match sort {
            TypeSort::Container => Err(ModelFault::WrongKind(role)),
            TypeSort::State(kind) => Ok(Some(kind)),
            _ => Ok(None),
        },
    }
}

impl Known {
    ghost use Rattle.paje_model.specs.Known.{IsKnown, IsOfLines};

    /// The sort of the type that the text of a role finds.
    fn sort(&self, fields: &Fields<'_>, role: Role) -> Option<TypeSort>
        requires { IsOfLines self.now }
        ensures { (n : ℕ) (before : List EventLine) → IsKnown before self.now
            → result ≡ option_map (λ t. t.sort) (type_named before (text_of (line_of n fields.now) role)) }
    {
        self.types.sort(text_of(fields, role))
    }

    /// The text of a role finds a type of containers.
    pub fn container_type(&self, fields: &Fields<'_>, role: Role) -> Result<(), ModelFault>
        requires { IsOfLines self.now }
        ensures { (n : ℕ) (before : List EventLine) → IsKnown before self.now
            → Finds (type_reason is_container_type before (line_of n fields.now) role)
            (λ _. Unit {0}) result }
    {
        only_containers(self.sort(fields, role), role)
    }

    /// The number of the state type that the text of Kind finds.
    pub fn state_type(&self, fields: &Fields<'_>) -> Result<u32, ModelFault>
        requires { IsOfLines self.now }
        ensures { (n : ℕ) (before : List EventLine) → IsKnown before self.now
            → Finds (type_reason (λ sort. is_some (state_number sort)) before (line_of n fields.now) Kind)
            (λ kind. kind_named before (text_of (line_of n fields.now) Kind) ≡ Some kind) result }
    {
        only_states(self.sort(fields, Role::Kind), Role::Kind)
    }

    /// The number of the link type that the text of Kind finds.
    pub fn link_type(&self, fields: &Fields<'_>) -> Result<u32, ModelFault>
        requires { IsOfLines self.now }
        ensures { (n : ℕ) (before : List EventLine) → IsKnown before self.now
            → Finds (type_reason (λ sort. is_some (link_number sort)) before (line_of n fields.now) Kind)
            (λ kind. link_kind_named before (text_of (line_of n fields.now) Kind) ≡ Some kind) result }
    {
        only_links(self.sort(fields, Role::Kind), Role::Kind)
    }

    /// The type of values that the text of Kind finds, which is none of containers: the number of a state
    /// type, `None` where it is of another sort.
    pub fn value_type(&self, fields: &Fields<'_>) -> Result<Option<u32>, ModelFault>
        requires { IsOfLines self.now }
        ensures { (n : ℕ) (before : List EventLine) → IsKnown before self.now
            → Finds (type_reason (λ sort. not (is_container_type sort)) before (line_of n fields.now) Kind)
            (λ kind. kind_named before (text_of (line_of n fields.now) Kind) ≡ kind) result }
    {
        no_containers(self.sort(fields, Role::Kind), Role::Kind)
    }

    /// The place of the container that the text of a role finds, counted from 0.
    pub fn container(&self, fields: &Fields<'_>, role: Role) -> Result<u32, ModelFault>
        requires { IsOfLines self.now }
        ensures { (n : ℕ) (before : List EventLine) → IsKnown before self.now
            → Finds (container_reason before (line_of n fields.now) role)
            (λ place. container_named before (text_of (line_of n fields.now) role) ≡ Some place) result }
    {
        match self.containers.place(text_of(fields, role)) {
            Some(place) => Ok(place as u32),
            None => Err(ModelFault::UnknownEntity(role)),
        }
    }
}
