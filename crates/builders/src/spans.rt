ghost use Rattle.std.specs.Prelude.{◌≡◌, ◌<◌, List, length, map};
ghost use Rattle.builders.specs.Built.{BuiltFitBetween, StoredItem, built, items_in};
ghost use Rattle.node_key.specs.Bound.{start_of, stop_of};

use crate::built::BuiltItem;
use trace_base::MAX_TIME;

/// When the first item begins, in nanoseconds.
pub fn start(items: &[BuiltItem]) -> u64
    requires { 0 < length items.now }
    ensures { (stored : List StoredItem) → items.now ≡ map built stored → result ≡ start_of (items_in stored) }
{
    items[0].at
}

/// When the last item ends, in nanoseconds.
pub fn stop(items: &[BuiltItem]) -> u64
    requires some { 0 < length items.now }
    requires placed { BuiltFitBetween 0 MAX_TIME items.now }
    ensures { (stored : List StoredItem) → items.now ≡ map built stored → result ≡ stop_of (items_in stored) }
{
    let last = &items[items.len() - 1];
    last.at + last.dur
}
