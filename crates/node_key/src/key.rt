ghost use Rattle.std.specs.Prelude.{◌≡◌, ◌+◌, ◌≤◌, ◌-◌, ◌↔◌, drop, replicate, sum_by};
ghost use Rattle.node_key.specs.declared.limits.TheConstants.{MAX_KIDS};
ghost use Rattle.node_key.specs.declared.key.Kid.{Kid};

/// A kid in the key of a node: the nanoseconds from the end of the kid before it, or from the node's start,
/// to its start; its duration in nanoseconds; and the number under which the store keeps it.
#[derive(Clone, Copy, Debug, PartialEq, Eq)]
pub struct Kid {
    pub gap: u64,
    pub span: u64,
    pub node: u64,
}

/// What the store keeps a node under: its function, or 0 for a group, its duration in nanoseconds, its
/// height, the number of its kids, and the kids. Nodes with equal keys are one node.
#[derive(Clone, Copy, Debug, PartialEq, Eq)]
pub struct NodeKey {
    pub func: u32,
    pub dur: u64,
    pub height: u16,
    pub len: u8,
    pub kids: [Kid; 8],
    pub ghost few: { len ≤ MAX_KIDS },
    /// Kids past `len` are all zero.
    pub ghost zero_past: { drop len kids ≡ replicate (MAX_KIDS - len)
        (record { gap = 0; span = 0; node = 0 }) },
    /// Only a leaf has height 0.
    pub ghost leaf: { (height ≡ 0) ↔ (len ≡ 0) },
    pub ghost within: { sum_by (λ k. k.gap + k.span) kids ≤ dur },
}

const NO_KID: Kid = Kid {
    gap: 0,
    span: 0,
    node: 0,
};

impl NodeKey {
    ghost use Rattle.std.specs.Prelude.{length, take};

    /// The key of a node without kids: of a call of `func`, or of a group where that is 0, which takes `dur`
    /// nanoseconds.
    pub fn leaf(func: u32, dur: u64) -> NodeKey
        ensures func { result.func ≡ func }
        ensures dur { result.dur ≡ dur }
        ensures height { result.height ≡ 0 }
        ensures len { result.len ≡ 0 }
    {
        NodeKey {
            func,
            dur,
            height: 0,
            len: 0,
            kids: [NO_KID; 8],
        }
    }

    /// The key of a node over these kids, in order. Its kids past them are all zero, as those of any key.
    pub fn over(func: u32, dur: u64, height: u16, kids: &[Kid]) -> NodeKey
        requires some { 1 ≤ length kids.now }
        requires few { length kids.now ≤ MAX_KIDS }
        requires higher { 1 ≤ height }
        requires within { sum_by (λ k. k.gap + k.span) kids.now ≤ dur }
        ensures func { result.func ≡ func }
        ensures dur { result.dur ≡ dur }
        ensures height { result.height ≡ height }
        ensures len { result.len ≡ length kids.now }
        ensures kids { take (length kids.now) result.kids ≡ kids.now }
    {
        let mut first = [NO_KID; 8];
        first[..kids.len()].copy_from_slice(kids);
        NodeKey {
            func,
            dur,
            height,
            len: kids.len() as u8,
            kids: first,
        }
    }
}
