//! The plain folds over the raw events of legal streams. They are slow and short: what the fast
//! queries answer is compared with them.
#![tactic(auto)]

mod flat;
mod line;
mod part;
mod pass;
mod paths;

pub use flat::{flat_of, flat_of_all};
pub use line::line_of;
pub use paths::paths_of;
