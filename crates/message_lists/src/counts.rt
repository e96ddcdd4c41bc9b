ghost use Rattle.std.specs.Prelude.{◌≡◌, ◌+◌, ◌<◌, ◌^◌, ℕ, List, IfOk, if◌then◌else◌};
ghost use Rattle.message_lists.specs.Arrivals.{count_at, is_at};

use crate::link_key::LinkKey;
use std::collections::HashMap;
use trace_base::Memory;

/// Counts one more of the link type and key, and answers how many were counted before.
pub fn count<'a>(counts: &mut HashMap<LinkKey<'a>, usize>, at: LinkKey<'a>) -> Result<usize, Memory>
    requires { count_at counts.old at.kind at.key.now + 1 < 2 ^ 64 }
    ensures before { IfOk result (λ n. n ≡ count_at counts.old at.entry.kind at.entry.key.now) }
    ensures after { IfOk result (λ n. (kind : ℕ) (key : List ℕ) →
        count_at counts.new kind key ≡ count_at counts.old kind key
        + (if is_at at.entry kind key then 1 else 0)) }
{
    let before = counts.get(&at).copied().unwrap_or(0);
    counts.insert(at, before + 1)?;
    Ok(before)
}
