ghost use Rattle.std.specs.Prelude.{◌≡◌};
ghost use Rattle.event_model.specs.Part.{has};
ghost use Rattle.trace_base.specs.Flat.{is_open_in, is_innermost_in};
ghost use Rattle.trace_base.specs.Paths.{is_path};

/// A part of a track's time, told by the call stacks during which it runs.
#[derive(Clone, Copy)]
pub enum Part<'a> {
    /// A call of this function is open.
    Open(u32),
    /// The innermost call is one of this function.
    Innermost(u32),
    /// No call is open.
    Bare,
    /// The calls that are open are this path, the outermost first.
    At(&'a [u32]),
    /// They begin with this path.
    Under(&'a [u32]),
}

// Whether a call of the function is open.
fn is_open(f: u32, stack: &[u32]) -> bool
    ensures { result ≡ is_open_in f stack.now }
{
    stack.iter().any(|g| *g == f)
}

// Whether the innermost call is one of the function.
fn is_innermost(f: u32, stack: &[u32]) -> bool
    ensures { result ≡ is_innermost_in f stack.now }
{
    match stack.last() {
        Some(g) => *g == f,
        None => false,
    }
}

// Whether the calls that are open are the path.
fn is_at(path: &[u32], stack: &[u32]) -> bool
    ensures { result ≡ is_path path.now stack.now }
{
    stack == path
}

/// Whether the part's time runs while the call stack is this one, the outermost call first.
pub fn runs(part: Part<'_>, stack: &[u32]) -> bool
    ensures { result ≡ has part.entry stack.now }
{
    match part {
        Part::Open(f) => is_open(f, stack),
        Part::Innermost(f) => is_innermost(f, stack),
        Part::Bare => stack.is_empty(),
        Part::At(path) => is_at(path, stack),
        Part::Under(path) => stack.starts_with(path),
    }
}
