//! The program `cccgd`, and its edge: its words, standard input and output.
#![tactic(auto)]

mod standard;
#[cfg(test)]
mod tests;
mod words;

use standard::{StandardInput, StandardOutput};
use std::process::ExitCode;
use trace_session::run;
use words::{without_words, words};

fn main(rt: HostRuntime) -> ExitCode {
    let mut input = StandardInput::new(rt.stdin());
    let mut output = StandardOutput::new(rt.stdout());
    let status = match words(&rt) {
        Ok(words) => run(&rt, rt.alloc(), words.as_slice(), &mut input, &mut output),
        Err(why) => without_words(&rt, rt.alloc(), why, &mut input, &mut output),
    };
    ExitCode::from(status)
}
