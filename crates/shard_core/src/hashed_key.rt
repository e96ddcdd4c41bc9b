ghost use Rattle.std.specs.Prelude.{◌≡◌};
ghost use Rattle.shard_core.specs.Digest.{digest, mixed};

use node_key::{Kid, NodeKey};
use std::hash::{Hash, Hasher};

/// Odd numbers whose bits are spread, by which the parts of a key are multiplied.
const GAP_FACTOR: u64 = 0x9E37_79B9_7F4A_7C15;

const SPAN_FACTOR: u64 = 0xC2B2_AE3D_27D4_EB4F;

const NODE_FACTOR: u64 = 0xD6E8_FEB8_6659_FD93;

/// A key as a table hashes it: by the kids that are there, in one number.
#[derive(Clone, Copy)]
pub(crate) struct HashedKey {
    pub(crate) key: NodeKey,
}

impl PartialEq for HashedKey {
    ghost use Rattle.std.specs.Cmp.{on_equiv, partial_equiv_from_equiv};
    ghost use Rattle.shard_core.specs.SameKey.{same_key, same_key-equiv};

    ghost eq = { λ a b. same_key a.key b.key };

    ghost laws = { partial_equiv_from_equiv (on_equiv (λ h. h.key) same_key-equiv) };

    fn eq(&self, other: &HashedKey) -> bool {
        self.key == other.key
    }
}

impl Eq for HashedKey {
    ghost use Rattle.std.specs.Cmp.{on_equiv};
    ghost use Rattle.shard_core.specs.SameKey.{same_key-equiv};

    ghost laws = { on_equiv (λ h. h.key) same_key-equiv };
}

impl Hash for HashedKey {
    ghost use Rattle.std.specs.Hash as fed;
    ghost use Rattle.std.proofs.Common.{ap};
    ghost use Rattle.shard_core.specs.Digest.{digest};
    ghost use Rattle.shard_core.specs.SameKey.{digest_of_same};

    ghost hash_input = { λ k. fed.u64 (digest k.key) };

    ghost respects_eq = { λ x y e. ap fed.u64 (digest_of_same x.key y.key e) };

    fn hash<H: Hasher>(&self, state: &mut H) {
        state.write_u64(digest(&self.key));
    }
}

// A digest with one kid more.
fn mix(so_far: u64, kid: Kid) -> u64
    ensures { result ≡ mixed so_far kid }
{
    let parts = kid
        .gap
        .wrapping_mul(GAP_FACTOR)
        .wrapping_add(kid.span.wrapping_mul(SPAN_FACTOR))
        .wrapping_add(kid.node.wrapping_mul(NODE_FACTOR));
    (so_far ^ parts).wrapping_mul(GAP_FACTOR)
}

// A number that tells most keys apart: of the function, the duration and the kids that are there.
fn digest(key: &NodeKey) -> u64
    ensures { result ≡ digest key.now }
{
    let mut so_far = key.dur.wrapping_mul(SPAN_FACTOR) ^ u64::from(key.func);
    for kid in &key.kids[..key.len as usize] {
        so_far = mix(so_far, *kid);
    }
    so_far
}
