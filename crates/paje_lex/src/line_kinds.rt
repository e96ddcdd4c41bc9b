ghost use Rattle.std.specs.Prelude.{◌≡◌, ◌≤◌, length};
ghost use Rattle.std.specs.List.{prefix_len};
ghost use Rattle.paje_lex.specs.LineKinds.{is_blank, is_definition_line, is_skipped_line, tokens_start};

/// Whether a byte is a space or a tab.
pub fn is_blank(byte: u8) -> bool
    ensures { result ≡ is_blank byte }
{
    byte == b' ' || byte == b'\t'
}

/// How many spaces and tabs stand at the front.
fn blanks(line: &[u8]) -> usize
    ensures len { result ≡ prefix_len is_blank line.now }
    ensures within { result ≤ length line.now }
{
    for (at, byte) in line.iter().enumerate() {
        if !is_blank(*byte) {
            return at;
        }
    }
    line.len()
}

/// Whether a line is skipped: it is empty, it has only spaces and tabs, or its first byte after them is `#`.
pub fn is_skipped(line: &[u8]) -> bool
    ensures { result ≡ is_skipped_line line.now }
{
    let at = blanks(line);
    at == line.len() || line[at] == b'#'
}

/// Whether a line is a definition line: its first byte after spaces and tabs is `%`.
pub fn is_definition(line: &[u8]) -> bool
    ensures { result ≡ is_definition_line line.now }
{
    let at = blanks(line);
    at < line.len() && line[at] == b'%'
}

/// Where the tokens of a line begin: after the `%` of a definition line, else at its front.
pub fn start_of(line: &[u8]) -> usize
    ensures start { result ≡ tokens_start line.now }
    ensures within { result ≤ length line.now }
{
    if is_definition(line) {
        blanks(line) + 1
    } else {
        0
    }
}
