/// What a trace may have only so many of.
#[derive(Clone, Copy, Debug, PartialEq, Eq)]
pub enum What {
    /// Declared types.
    Types,
    /// Declared values of state types.
    Values,
    /// Containers, the root included.
    Containers,
    /// Lines that enter or leave calls.
    StateEvents,
    /// Pairs of a container and a state type.
    Tracks,
    /// Different texts of values.
    Functions,
    /// Ends of messages.
    LinkEvents,
}
