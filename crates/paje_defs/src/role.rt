ghost use Rattle.std.specs.Prelude.{◌≡◌};
ghost use Rattle.paje_defs.specs.Role.{first_name, needed, second_name};

use crate::event_name::EventName;
use crate::field_name::FieldName;

/// What a field is to an event.
#[derive(Clone, Copy, Debug, PartialEq, Eq)]
pub enum Role {
    /// When it happens.
    Time,
    /// Another name of what is declared.
    Alias,
    /// The type.
    Kind,
    /// The name.
    Name,
    /// The container that holds it.
    Holder,
    /// The value.
    Value,
    /// What joins the ends of a link.
    Key,
    /// The type of the container that a link starts in.
    FromKind,
    /// The type of the container that a link ends in.
    ToKind,
    /// The container that a link starts in.
    From,
    /// The container that a link ends in.
    To,
    /// The size of a message.
    Size,
}

impl Role {
    /// The name of a field of this role that is preferred.
    pub(crate) fn first_name(self) -> FieldName
        ensures { result ≡ first_name self }
    {
        match self {
            Role::Time => FieldName::Time,
            Role::Alias => FieldName::Alias,
            Role::Kind => FieldName::Type,
            Role::Name => FieldName::Name,
            Role::Holder => FieldName::Container,
            Role::Value => FieldName::Value,
            Role::Key => FieldName::Key,
            Role::FromKind => FieldName::StartContainerType,
            Role::ToKind => FieldName::EndContainerType,
            Role::From => FieldName::StartContainer,
            Role::To => FieldName::EndContainer,
            Role::Size => FieldName::Size,
        }
    }

    /// The other name of a field of this role in a definition of an event, where there is one.
    pub(crate) fn second_name(self, event: EventName) -> Option<FieldName>
        ensures { result ≡ second_name event self }
    {
        match (self, event) {
            (
                Role::Kind,
                EventName::DefineContainerType
                | EventName::DefineStateType
                | EventName::DefineEventType
                | EventName::DefineVariableType
                | EventName::DefineLinkType,
            ) => Some(FieldName::ContainerType),
            (Role::Name, EventName::DestroyContainer) => Some(FieldName::Container),
            (Role::FromKind, _) => Some(FieldName::SourceContainerType),
            (Role::ToKind, _) => Some(FieldName::DestContainerType),
            (Role::From, _) => Some(FieldName::SourceContainer),
            (Role::To, _) => Some(FieldName::DestContainer),
            _ => None,
        }
    }

    /// The roles that an event needs, in order.
    pub(crate) fn needed_by(event: EventName) -> &'static [Role]
        ensures { result.now ≡ needed event }
    {
        match event {
            EventName::DefineContainerType
            | EventName::DefineStateType
            | EventName::DefineEventType
            | EventName::DefineVariableType
            | EventName::DefineEntityValue => &[Role::Kind, Role::Name],
            EventName::DefineLinkType => &[Role::Kind, Role::FromKind, Role::ToKind, Role::Name],
            EventName::CreateContainer => &[Role::Time, Role::Kind, Role::Holder, Role::Name],
            EventName::DestroyContainer => &[Role::Time, Role::Name],
            EventName::PushState | EventName::SetState => {
                &[Role::Time, Role::Kind, Role::Holder, Role::Value]
            }
            EventName::PopState | EventName::ResetState => &[Role::Time, Role::Kind, Role::Holder],
            EventName::StartLink => &[Role::Time, Role::Kind, Role::From, Role::Key],
            EventName::EndLink => &[Role::Time, Role::Kind, Role::To, Role::Key],
            EventName::NewEvent
            | EventName::SetVariable
            | EventName::AddVariable
            | EventName::SubVariable => &[Role::Time],
        }
    }
}
