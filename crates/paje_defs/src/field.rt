use crate::field_name::FieldName;
use crate::field_type::FieldType;

/// A field of a definition.
#[derive(Clone, Copy, Debug, PartialEq, Eq)]
pub struct Field {
    pub name: FieldName,
    pub kind: FieldType,
}
