ghost use Rattle.std.specs.Prelude.{◌≡◌};
ghost use Rattle.paje_defs.specs.EventName.{all_events, event_name_of, event_text};

/// What an event line tells: the names of the Pajé format, without `Paje`.
#[derive(Clone, Copy, Debug, PartialEq, Eq)]
pub enum EventName {
    /// `PajeDefineContainerType`.
    DefineContainerType,
    /// `PajeDefineStateType`.
    DefineStateType,
    /// `PajeDefineEventType`.
    DefineEventType,
    /// `PajeDefineVariableType`.
    DefineVariableType,
    /// `PajeDefineLinkType`.
    DefineLinkType,
    /// `PajeDefineEntityValue`.
    DefineEntityValue,
    /// `PajeCreateContainer`.
    CreateContainer,
    /// `PajeDestroyContainer`.
    DestroyContainer,
    /// `PajePushState`.
    PushState,
    /// `PajeSetState`.
    SetState,
    /// `PajePopState`.
    PopState,
    /// `PajeResetState`.
    ResetState,
    /// `PajeStartLink`.
    StartLink,
    /// `PajeEndLink`.
    EndLink,
    /// `PajeNewEvent`.
    NewEvent,
    /// `PajeSetVariable`.
    SetVariable,
    /// `PajeAddVariable`.
    AddVariable,
    /// `PajeSubVariable`.
    SubVariable,
}

impl EventName {
    const ALL: [EventName; 18] = [
        EventName::DefineContainerType,
        EventName::DefineStateType,
        EventName::DefineEventType,
        EventName::DefineVariableType,
        EventName::DefineLinkType,
        EventName::DefineEntityValue,
        EventName::CreateContainer,
        EventName::DestroyContainer,
        EventName::PushState,
        EventName::SetState,
        EventName::PopState,
        EventName::ResetState,
        EventName::StartLink,
        EventName::EndLink,
        EventName::NewEvent,
        EventName::SetVariable,
        EventName::AddVariable,
        EventName::SubVariable,
    ];

    /// How it is written.
    fn text(self) -> &'static [u8]
        ensures { result.now ≡ event_text self }
    {
        match self {
            EventName::DefineContainerType => b"PajeDefineContainerType",
            EventName::DefineStateType => b"PajeDefineStateType",
            EventName::DefineEventType => b"PajeDefineEventType",
            EventName::DefineVariableType => b"PajeDefineVariableType",
            EventName::DefineLinkType => b"PajeDefineLinkType",
            EventName::DefineEntityValue => b"PajeDefineEntityValue",
            EventName::CreateContainer => b"PajeCreateContainer",
            EventName::DestroyContainer => b"PajeDestroyContainer",
            EventName::PushState => b"PajePushState",
            EventName::SetState => b"PajeSetState",
            EventName::PopState => b"PajePopState",
            EventName::ResetState => b"PajeResetState",
            EventName::StartLink => b"PajeStartLink",
            EventName::EndLink => b"PajeEndLink",
            EventName::NewEvent => b"PajeNewEvent",
            EventName::SetVariable => b"PajeSetVariable",
            EventName::AddVariable => b"PajeAddVariable",
            EventName::SubVariable => b"PajeSubVariable",
        }
    }

    /// The event of a name in the text.
    pub(crate) fn from_text(text: &[u8]) -> Option<EventName>
        ensures { result ≡ event_name_of text.now }
    {
        EventName::ALL
            .iter()
            .copied()
            .find(|name| name.text() == text)
    }
}
