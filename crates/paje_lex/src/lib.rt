//! The tokens of a trace line, and the dates that stand in it.
#![tactic(auto)]

mod date_fault;
mod dates;
mod examples;
mod lex_fault;
mod line;
mod line_kinds;
mod powers;
mod short_dates;
mod state;
mod token;
mod unread;

pub use date_fault::DateFault;
pub use dates::date;
pub use examples::{date_examples, line_examples, token_examples};
pub use lex_fault::LexFault;
pub use line::{tokens, tokens_into};
pub use line_kinds::{is_definition, is_skipped};
pub use token::Token;
pub use unread::Unread;
