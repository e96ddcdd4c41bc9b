//! Reads decimal digits. A number of any count of digits is kept, exactly where it is below 2^64.
#![tactic(auto)]

mod digits;
mod examples;
#[cfg(test)]
mod tests;
mod word;

pub use digits::Digits;
pub use examples::decimal_examples;
pub use word::decimal;
