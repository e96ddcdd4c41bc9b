ghost use Rattle.std.specs.Prelude.{◌≡◌};
ghost use Rattle.paje_defs.specs.FieldType.{all_types, type_of, type_text};

/// The types of fields.
#[derive(Clone, Copy, Debug, PartialEq, Eq)]
pub enum FieldType {
    /// `date`.
    Date,
    /// `int`.
    Int,
    /// `double`.
    Double,
    /// `hex`.
    Hex,
    /// `string`.
    String,
    /// `color`.
    Color,
}

impl FieldType {
    const ALL: [FieldType; 6] = [
        FieldType::Date,
        FieldType::Int,
        FieldType::Double,
        FieldType::Hex,
        FieldType::String,
        FieldType::Color,
    ];

    /// How it is written.
    fn text(self) -> &'static [u8]
        ensures { result.now ≡ type_text self }
    {
        match self {
            FieldType::Date => b"date",
            FieldType::Int => b"int",
            FieldType::Double => b"double",
            FieldType::Hex => b"hex",
            FieldType::String => b"string",
            FieldType::Color => b"color",
        }
    }

    /// The type of a name in the text.
    pub(crate) fn from_text(text: &[u8]) -> Option<FieldType>
        ensures { result ≡ type_of text.now }
    {
        FieldType::ALL
            .iter()
            .copied()
            .find(|name| name.text() == text)
    }
}
