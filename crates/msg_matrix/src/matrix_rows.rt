ghost use Rattle.std.specs.Prelude.{◌≡◌, IfOk};
ghost use Rattle.std.specs.BTreeMap.{values, IsOrdered};
ghost use Rattle.trace_base.specs.Flat.{is_within};
ghost use Rattle.trace_base.specs.Matrix.{matrix_of, pair_cmp};

use crate::pairs::add;
use std::alloc::Global;
use std::collections::BTreeMap;
use trace_base::{Matrix, MatrixRow, Memory, Message, MsgTable, Seq};

// Whether the message was sent within [a, b).
fn is_sent_within(m: &Message, a: u64, b: u64) -> bool
    ensures { result ≡ is_within a b m.now.send }
{
    a <= m.send && m.send < b
}

// The rows, in the order of their pairs.
fn rows_in_order(
    alloc: Global,
    pairs: &BTreeMap<(u32, u32), MatrixRow>,
) -> Result<Vec<MatrixRow>, Memory>
    ensures exact { IfOk result (λ rows. rows.items ≡ values pairs.now) }
    ensures ordered { IsOrdered pair_cmp pairs.now }
{
    Ok(pairs.values().copied().collect(alloc)?)
}

/// The communication matrix of the messages that were sent within [a, b), in nanoseconds: for each pair of
/// containers that has such a message their number, the sum of their sizes, the sum and the greatest of their
/// times on the way, and how many were received before they were sent. The time on the way of such a message
/// is 0. Rows rise by the sender, then the receiver. `Memory` where none was found.
pub fn matrix(alloc: Global, t: &MsgTable, a: u64, b: u64) -> Result<Matrix, Memory>
    ensures { IfOk result (λ m. m ≡ matrix_of t.now.messages a b) }
{
    let mut pairs: BTreeMap<(u32, u32), MatrixRow> = BTreeMap::new(alloc);
    for m in t.messages.as_slice() {
        if is_sent_within(m, a, b) {
            add(&mut pairs, *m)?;
        }
    }
    let rows = rows_in_order(alloc, &pairs)?;
    Ok(Matrix {
        rows: Seq::from_vec(rows),
    })
}
