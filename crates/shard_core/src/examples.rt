//! The definitions, computed on small rooms. Each clause is the equation; the bodies are empty.
ghost use Rattle.std.specs.Prelude.{◌≡◌, Err, None, Ok, Some};
ghost use Rattle.node_key.specs.Examples.{leaf_of_three};
ghost use Rattle.shard_core.specs.declared.answers.Dropped.TheVariants.{Kept, Removed};
ghost use Rattle.shard_core.specs.declared.answers.Interned.TheVariants.{Known, New};
ghost use Rattle.shard_core.specs.declared.answers.ShardFault.TheVariants.{Memory, Spent};
ghost use Rattle.shard_core.specs.Room.{next_number, node_at, with_node, without};
ghost use Rattle.shard_core.specs.Interning.{Drops, Interns};
ghost use Rattle.shard_core.specs.Examples.{all_given, counted, counted_out, last_given, last_number};
ghost use Rattle.shard_core.specs.Examples.{one_left};

/// The number that a room with one number left gives next, and the index after it.
pub fn last_number_of_a_room()
    ensures number { next_number one_left ≡ 17592186044403 }
    ensures index { last_given.next ≡ 1099511627776 }
{}

/// What is under numbers: of a room without nodes, after a node is added, counted again, and removed.
pub fn nodes_under_numbers()
    ensures nothing { node_at one_left last_number ≡ None }
    ensures added { node_at last_given last_number ≡ Some (record { key = leaf_of_three; count = 1 }) }
    ensures elsewhere { node_at last_given 3 ≡ None }
    ensures counted { node_at (counted 2) last_number ≡ Some (record { key = leaf_of_three; count = 2 }) }
    ensures removed { node_at (without last_given last_number) last_number ≡ None }
{}

/// Answers to a key: the last number for a new one, the count raised where it is known, and what is used up:
/// a count of 2^62, and 2^40 numbers. A refusal changes nothing.
pub fn answers_to_a_key()
    ensures new { Interns one_left leaf_of_three (Ok (New 17592186044403)) last_given }
    ensures known { Interns last_given leaf_of_three (Ok (Known 17592186044403)) (counted 2) }
    ensures greatest { Interns counted_out leaf_of_three (Err (Spent 4611686018427387904)) counted_out }
    ensures numbers { Interns all_given leaf_of_three (Err (Spent 1099511627776)) all_given }
    ensures memory { Interns one_left leaf_of_three (Err Memory) one_left }
{}

/// A count dropped: of two one is left, and with the last the node goes.
pub fn answers_to_a_drop()
    ensures kept { Drops (counted 2) last_number Kept (with_node (counted 2) last_number leaf_of_three 1) }
    ensures removed { Drops last_given last_number (Removed leaf_of_three) (without last_given last_number) }
{}
