//! Functions that lines enter.
ghost use Rattle.std.specs.Prelude.{◌≡◌};

/// Where the function stands that a line enters.
#[derive(Clone, Copy, Debug, PartialEq, Eq)]
pub enum FunctionPlace {
    /// The line enters no call.
    NoCall,
    /// At this place among the functions that were entered before, counted from 0.
    At(usize),
    /// None before the line entered it.
    New,
}

impl FunctionPlace {
    ghost use Rattle.paje_model.specs.FunctionPlace.{is_new};

    /// No line before entered it.
    pub fn is_new(self) -> bool
        ensures { result ≡ is_new self }
    {
        match self {
            FunctionPlace::New => true,
            _ => false,
        }
    }
}
