//! The law of the generated trace. The statement is the clause; the body is empty.
ghost use Rattle.std.specs.Prelude.{◌≤◌, ℕ};
ghost use Rattle.paje_print.specs.Canonical.{IsCanonical};
ghost use Rattle.paje_print.specs.Generated.{generated_trace};

use crate::generator::MAX_SIZE;

/// A generated trace of at most `MAX_SIZE` state events has a canonical text, whatever its seed is.
pub fn generated_traces_are_canonical()
    ensures { (seed size : ℕ) → size ≤ MAX_SIZE → IsCanonical (generated_trace seed size) }
{}
