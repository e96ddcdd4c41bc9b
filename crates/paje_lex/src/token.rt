/// One token of a line: where its bytes stand in the line, counted from 0. A token in quotes is without them.
#[derive(Clone, Copy, Debug, PartialEq, Eq)]
pub struct Token {
    /// Its first byte.
    pub from: u32,
    /// The byte after its last.
    pub to: u32,
}
