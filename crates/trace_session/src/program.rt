ghost use Rattle.std.specs.Prelude.{◌≡◌, ◌≢◌, ◌++◌, ◌∷◌, [], ◌⊎◌, ◌↔◌, IsTrue, List, ℕ, codes, string_bytes};
ghost use Rattle.std.specs.Prelude.{map};
ghost use Rattle.trace_base.specs.Outside.{Rose, Told};
ghost use Rattle.trace_session.specs.Output.{WritesFront};
ghost use Rattle.trace_session.specs.Run.{RunsBatch, usage_text};

use crate::buffer::SessionBuf;
use crate::finish::{FAULT, tell_left};
use crate::output::{WriteFailed, write_all};
use crate::sessions::session;
use plain_hall::PlainHall;
use std::alloc::Global;
use std::sync::Wait;
use trace_base::{Sink, Source};

/// The status where the words aren't known.
const UNKNOWN_WORDS: u8 = 2;

/// The status where no memory was found before anything was read or written.
const NO_MEMORY: u8 = 5;

/// The words that the program knows.
const USAGE: &str =
    "usage: cccgd batch, cccgd serve <addr> <workers> <each>, cccgd gen <seed> <size>\n";

/// The whole program, for the words behind its own name. `batch` serves one session over a new hall, and
/// writes behind its replies the line `LEFT traces nodes`: how many traces are open then, and how many
/// different subtrees the trees of their tracks have. Where the output failed in the session that line isn't
/// written. The answer is the exit status: 0 where the session ended behind QUIT or at the end of the input
/// between two requests, and all was written; 2 where the words aren't known and the usage line was written;
/// 3 where the output failed, or in `batch` the input; 5 where no memory was found for the hall or the
/// buffers, and nothing was read or written; 6 where the input ended inside a request, and all was written.
pub fn run<R: Wait, I: Source, O: Sink>(
    rt: &R,
    alloc: Global,
    words: &[String],
    input: &mut I,
    output: &mut O,
) -> u8
    ensures batch { map string_bytes words.now ≡ codes "batch" ∷ [] → result ≢ 5
        → RunsBatch (record { left = I.left input.old; faults = I.faults input.old })
        (record { left = I.left input.new; faults = I.faults input.new })
        (record { held = O.held output.old; faults = O.faults output.old })
        (record { held = O.held output.new; faults = O.faults output.new }) result }
    ensures memory { result ≡ 5 → (map string_bytes words.now ≡ codes "batch" ∷ []) × (input.new ≡ input.old)
        × (output.new ≡ output.old) }
    ensures unknown { (map string_bytes words.now ≢ codes "batch" ∷ []) → (input.new ≡ input.old)
        × ((result ≡ 2) ⊎ (result ≡ 3)) }
    ensures usage { result ≡ 2 → (map string_bytes words.now ≢ codes "batch" ∷ [])
        × Told (O.held output.old) (O.held output.new) (λ was now. now ≡ was ++ usage_text) }
    ensures no_usage { (map string_bytes words.now ≢ codes "batch" ∷ []) → result ≡ 3
        → Told (O.held output.old) (O.held output.new) (WritesFront usage_text) }
    ensures fault { result ≡ 3 → Rose (O.faults output.old) (O.faults output.new)
        ⊎ Rose (I.faults input.old) (I.faults input.new) }
{
    if !is_batch(words) {
        return usage(output);
    }
    let Ok(mut hall) = PlainHall::new(alloc) else {
        return NO_MEMORY;
    };
    let Ok(mut buf) = SessionBuf::new(alloc) else {
        return NO_MEMORY;
    };
    let end = session(rt, alloc, &mut hall, input, output, &mut buf);
    tell_left(output, hall.left(), end, &mut buf.reply)
}

// Whether the one word is `batch`.
fn is_batch(words: &[String]) -> bool
    ensures { IsTrue result ↔ (map string_bytes words.now ≡ codes "batch" ∷ []) }
{
    match words {
        [word] => word.as_str() == "batch",
        _ => false,
    }
}

// Writes the usage line.
fn usage<O: Sink>(output: &mut O) -> u8
    ensures status { (result ≡ 2) ⊎ (result ≡ 3) }
    ensures written { result ≡ 2 → Told (O.held output.old) (O.held output.new) (λ was now. now ≡ was
        ++ usage_text) }
    ensures failed { result ≡ 3 → Told (O.held output.old) (O.held output.new) (WritesFront usage_text) }
    ensures cause { result ≡ 3 → Rose (O.faults output.old) (O.faults output.new) }
{
    match write_all(output, USAGE.as_bytes()) {
        Ok(()) => UNKNOWN_WORDS,
        Err(WriteFailed) => FAULT,
    }
}
