/// What a declared type is a type of. The state types and the link types are numbered from 0, in the order of
/// their lines.
#[derive(Clone, Copy, Debug, PartialEq, Eq)]
pub enum TypeSort {
    /// A type of containers.
    Container,
    /// The state type of this number.
    State(u32),
    /// A type of punctual events.
    Event,
    /// A type of variables.
    Variable,
    /// The link type of this number.
    Link(u32),
}
