ghost use Rattle.std.specs.Prelude.{◌≡◌};
ghost use Rattle.paje_defs.specs.FieldName.{all_fields, field_name_of, field_text, known_field};

/// The names of fields that have a role. Any other is `Other`.
#[derive(Clone, Copy, Debug, PartialEq, Eq)]
pub enum FieldName {
    /// `Time`.
    Time,
    /// `Alias`.
    Alias,
    /// `Type`.
    Type,
    /// `ContainerType`.
    ContainerType,
    /// `Name`.
    Name,
    /// `Container`.
    Container,
    /// `Value`.
    Value,
    /// `Key`.
    Key,
    /// `StartContainerType`.
    StartContainerType,
    /// `SourceContainerType`.
    SourceContainerType,
    /// `EndContainerType`.
    EndContainerType,
    /// `DestContainerType`.
    DestContainerType,
    /// `StartContainer`.
    StartContainer,
    /// `SourceContainer`.
    SourceContainer,
    /// `EndContainer`.
    EndContainer,
    /// `DestContainer`.
    DestContainer,
    /// `Size`.
    Size,
    /// Any other name: an additional field, which is skipped.
    Other,
}

impl FieldName {
    const ALL: [FieldName; 17] = [
        FieldName::Time,
        FieldName::Alias,
        FieldName::Type,
        FieldName::ContainerType,
        FieldName::Name,
        FieldName::Container,
        FieldName::Value,
        FieldName::Key,
        FieldName::StartContainerType,
        FieldName::SourceContainerType,
        FieldName::EndContainerType,
        FieldName::DestContainerType,
        FieldName::StartContainer,
        FieldName::SourceContainer,
        FieldName::EndContainer,
        FieldName::DestContainer,
        FieldName::Size,
    ];

    /// How it is written.
    fn text(self) -> &'static [u8]
        ensures { result.now ≡ field_text self }
    {
        match self {
            FieldName::Time => b"Time",
            FieldName::Alias => b"Alias",
            FieldName::Type => b"Type",
            FieldName::ContainerType => b"ContainerType",
            FieldName::Name => b"Name",
            FieldName::Container => b"Container",
            FieldName::Value => b"Value",
            FieldName::Key => b"Key",
            FieldName::StartContainerType => b"StartContainerType",
            FieldName::SourceContainerType => b"SourceContainerType",
            FieldName::EndContainerType => b"EndContainerType",
            FieldName::DestContainerType => b"DestContainerType",
            FieldName::StartContainer => b"StartContainer",
            FieldName::SourceContainer => b"SourceContainer",
            FieldName::EndContainer => b"EndContainer",
            FieldName::DestContainer => b"DestContainer",
            FieldName::Size => b"Size",
            FieldName::Other => b"",
        }
    }

    /// The name in the text, where it has a role.
    fn known(text: &[u8]) -> Option<FieldName>
        ensures { result ≡ known_field text.now }
    {
        FieldName::ALL
            .iter()
            .copied()
            .find(|name| name.text() == text)
    }

    /// The name in the text, `Other` where it has no role.
    pub(crate) fn from_text(text: &[u8]) -> FieldName
        ensures { result ≡ field_name_of text.now }
    {
        match FieldName::known(text) {
            Some(name) => name,
            None => FieldName::Other,
        }
    }
}
