use session_proto::Request;

/// What a session reads next: one request, whole.
#[derive(Clone, Copy, Debug, PartialEq, Eq)]
pub enum Incoming {
    /// A request line that no text follows. It is never a `Put`.
    Line(Request),
    /// The text of a load, which is in the buffer: `PUT len` and its bytes.
    Load,
    /// `PUT len` and its bytes, for which no memory was found. They were read, and dropped.
    Dropped,
    /// `PUT len` and its bytes, more than `MAX_TEXT`. They were read, and dropped.
    Large,
    /// A line that is no request. No bytes behind it belong to it.
    Unreadable,
}

/// How the input of a session ended.
#[derive(Clone, Copy, Debug, PartialEq, Eq)]
pub enum InputEnd {
    /// The source ended between two requests.
    End,
    /// The source ended inside a line, or inside the bytes of a PUT.
    Cut,
    /// The source failed.
    Failed,
}
