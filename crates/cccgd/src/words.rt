ghost use Rattle.cccgd.specs.declared.words.NoWords.TheVariants.{Memory, NotText};
ghost use Rattle.std.specs.Prelude.{◌≡◌, ◌≢◌, ◌++◌, ◌⊎◌};
ghost use Rattle.std.specs.IoError.{error_kind};
ghost use Rattle.std.specs.declared.io.ErrorKind.{ErrorKind};
ghost use Rattle.trace_base.specs.Outside.{Rose, Told};
ghost use Rattle.trace_session.specs.Output.{WritesFront};
ghost use Rattle.trace_session.specs.Run.{usage_text};

use std::alloc::{AllocGlobal, Global};
use std::env::{self, Env};
use std::io;
use std::sync::Wait;
use trace_base::{Sink, Source};
use trace_session::run;

/// The status where no memory was found before anything was read or written.
const NO_MEMORY: u8 = 5;

/// Why the program has no words to go by.
#[derive(Clone, Copy, Debug, PartialEq, Eq)]
pub enum NoWords {
    /// No memory was found for them.
    Memory,
    /// One of them isn't text: its bytes are no UTF-8.
    NotText,
}

/// Why `env::args` gave none: want of memory, or else a word that isn't text.
fn cause(error: io::Error) -> NoWords
    ensures memory { error_kind error ≡ ErrorKind.OutOfMemory → result ≡ Memory }
    ensures not_text { error_kind error ≢ ErrorKind.OutOfMemory → result ≡ NotText }
{
    match error.kind() {
        io::ErrorKind::OutOfMemory => NoWords::Memory,
        _ => NoWords::NotText,
    }
}

/// The words behind the program's own name. `Memory` where none was found for them, `NotText` where a word,
/// or that name, is no UTF-8.
pub fn words<R: Env + AllocGlobal>(rt: &R) -> Result<Vec<String>, NoWords> {
    let all = env::args(rt).map_err(cause)?;
    let mut words = Vec::new(rt.alloc());
    for word in all.skip(1) {
        if words.push(word).is_err() {
            return Err(NoWords::Memory);
        }
    }
    Ok(words)
}

/// The exit status where there are no words to go by: 5 where no memory was found for them, with nothing
/// read or written. A word that isn't text is none that the program knows: 2 where the usage line was
/// written, and 3 where the output failed.
pub fn without_words<R: Wait, I: Source, O: Sink>(
    rt: &R,
    alloc: Global,
    why: NoWords,
    input: &mut I,
    output: &mut O,
) -> u8
    ensures unread { input.new ≡ input.old }
    ensures memory { why ≡ Memory → (result ≡ 5) × (output.new ≡ output.old) }
    ensures not_text { why ≡ NotText → (result ≡ 2) ⊎ (result ≡ 3) }
    ensures usage { result ≡ 2 → Told (O.held output.old) (O.held output.new) (λ was now. now ≡ was
        ++ usage_text) }
    ensures no_usage { result ≡ 3 → Told (O.held output.old) (O.held output.new) (WritesFront usage_text) }
    ensures fault { result ≡ 3 → Rose (O.faults output.old) (O.faults output.new)
        ⊎ Rose (I.faults input.old) (I.faults input.new) }
{
    match why {
        NoWords::Memory => NO_MEMORY,
        NoWords::NotText => {
            let none: [String; 0] = [];
            run(rt, alloc, &none, input, output)
        }
    }
}
