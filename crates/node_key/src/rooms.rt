ghost use Rattle.std.specs.Prelude.{◌≡◌, ◌<◌, ◌%◌, ◌^◌};
ghost use Rattle.node_key.specs.Rooms.{kid_weight, room};
ghost use Rattle.node_key.specs.declared.limits.TheConstants.{STORE_ROOMS};

use crate::key::{Kid, NodeKey};
use crate::limits::STORE_ROOMS;

// What a kid adds to the room of its node, in 64 bits.
fn weight(kid: Kid) -> u64
    ensures { result ≡ kid_weight kid % 2 ^ 64 }
{
    kid.gap
        .wrapping_add(kid.span.wrapping_mul(3))
        .wrapping_add(kid.node.wrapping_mul(7))
}

/// The room of the store, from 0, that a key is in: `func + dur + dur / 16 + dur / 4096 + 5 * height` and,
/// for each kid, `gap + 3 * span + 7 * node`, added in 64 bits, which wrap, modulo 16.
#[tactic(auto, using(list_lemmas::proofs::Numbers::wrapping), unfolding(crate::specs::Rooms::room))]
pub fn room_of_key(k: &NodeKey) -> u8
    ensures exact { result ≡ room k.now }
    ensures within { result < STORE_ROOMS }
{
    let mut sum = u64::from(k.func)
        .wrapping_add(k.dur)
        .wrapping_add(k.dur / 16)
        .wrapping_add(k.dur / 4_096)
        .wrapping_add(5 * u64::from(k.height));
    for kid in &k.kids {
        sum = sum.wrapping_add(weight(*kid));
    }
    (sum % STORE_ROOMS) as u8
}

/// The room of the store, from 0, that gave a number.
pub fn room_of_number(n: u64) -> u8
    ensures exact { result ≡ n % STORE_ROOMS }
    ensures within { result < STORE_ROOMS }
{
    (n % STORE_ROOMS) as u8
}
