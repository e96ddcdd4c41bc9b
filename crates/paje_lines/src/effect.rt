/// What an event line does.
#[derive(Clone, Copy, Debug, PartialEq, Eq)]
pub enum Effect {
    /// It declares a type, a value of a state type, or a container.
    Declared,
    /// It enters a call.
    Entered,
    /// It leaves this many calls, over all tracks of a container that it destroys.
    Left(u32),
    /// It is one end of a message.
    Linked,
    /// It is dropped.
    Dropped,
}
