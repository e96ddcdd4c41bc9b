ghost use Rattle.std.specs.Prelude.{◌≡◌, ◌+◌, ◌^◌, ℕ, OnErr, OnOk, if◌then◌else◌};
ghost use Rattle.std.specs.BTreeMap.{keys, IsUnchanged};
ghost use Rattle.std.specs.BTreeSet.{insert_key};
ghost use Rattle.msg_matrix.specs.Pairs.{IsOfAtMost, empty_row, row_at, row_with};
ghost use Rattle.trace_base.specs.Matrix.{is_of, pair_cmp, pair_of};
ghost use Rattle.trace_base.specs.declared.matrix.MatrixRow.{MatrixRow};

use std::collections::BTreeMap;
use trace_base::{MatrixRow, Memory, Message};

// The row of a pair without messages.
fn no_messages(from: u32, to: u32) -> MatrixRow
    ensures { result ≡ empty_row (from, to) }
{
    MatrixRow {
        from,
        to,
        count: 0,
        bytes: 0,
        transit: 0,
        greatest: 0,
        backward: 0,
    }
}

// The row with one message more.
fn with_message(row: MatrixRow, m: Message) -> MatrixRow
    requires { IsOfAtMost row (2 ^ 63) }
    ensures exact { result ≡ row_with row m }
    ensures limits { (old : MatrixRow) (n : ℕ) → IsOfAtMost old n → IsOfAtMost (row_with old m) (n + 1) }
{
    let transit = m.receive.saturating_sub(m.send);
    MatrixRow {
        count: row.count + 1,
        bytes: row.bytes + u128::from(m.size),
        transit: row.transit + u128::from(transit),
        greatest: row.greatest.max(transit),
        backward: row.backward + u64::from(m.receive < m.send),
        ..row
    }
}

/// Adds the message to the row of its pair. On `Memory` the rows are as before.
pub fn add(pairs: &mut BTreeMap<(u32, u32), MatrixRow>, m: Message) -> Result<(), Memory>
    requires { IsOfAtMost (row_at pairs.old (pair_of m)) (2 ^ 63) }
    ensures rows { OnOk result ((q : ℕ × ℕ) →
        row_at pairs.new q ≡ (if is_of q m then row_with (row_at pairs.old q) m else row_at pairs.old q)) }
    ensures in_order { OnOk result (keys pairs.new ≡ insert_key pair_cmp (keys pairs.old) (pair_of m)) }
    ensures limits { OnOk result ((q : ℕ × ℕ) (n : ℕ) → IsOfAtMost (row_at pairs.old q) n
        → IsOfAtMost (row_at pairs.new q) (n + 1)) }
    ensures unchanged { OnErr result (IsUnchanged pairs.old pairs.new) }
{
    let key = (m.from, m.to);
    let row = pairs
        .get(&key)
        .copied()
        .unwrap_or(no_messages(m.from, m.to));
    pairs.insert(key, with_message(row, m))?;
    Ok(())
}
