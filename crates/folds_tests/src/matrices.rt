use msg_matrix::matrix;
use std::alloc::Global;
use std::test::Fail;
use trace_base::{MatrixRow, Memory, Message, MsgTable, Seq};

fn message(from: u32, to: u32, send: u64, receive: u64, size: u64) -> Message {
    Message {
        from,
        to,
        send,
        receive,
        size,
    }
}

/// The row with these numbers: how many, bytes, time on the way, the greatest such time, how many backward.
fn row_of_pair(from: u32, to: u32, numbers: [u64; 5]) -> MatrixRow {
    let [count, bytes, transit, greatest, backward] = numbers;
    MatrixRow {
        from,
        to,
        count,
        bytes: u128::from(bytes),
        transit: u128::from(transit),
        greatest,
        backward,
    }
}

/// Whether the matrix of the messages over [a, b) has these rows.
fn rows_are(
    alloc: Global,
    messages: &[Message],
    a: u64,
    b: u64,
    rows: &[MatrixRow],
) -> Result<bool, Memory> {
    let table = MsgTable {
        messages: Seq::from_slice(alloc, messages)?,
        unmatched: 0,
    };
    let found = matrix(alloc, &table, a, b)?;
    Ok(found.rows.as_slice() == rows)
}

// In the second the first message is sent where the interval ends.
#[test]
fn a_row_for_each_pair(rt: HostRuntime) -> Result<(), Fail> {
    let messages = [
        message(1, 2, 1_000_000_000, 1_500_000_000, 100),
        message(2, 1, 3_000_000_000, 2_500_000_000, 7),
    ];
    let want = [
        row_of_pair(1, 2, [1, 100, 500_000_000, 500_000_000, 0]),
        row_of_pair(2, 1, [1, 7, 0, 0, 1]),
    ];
    assert!(rt; rows_are(rt.alloc(), &messages, 0, 4_000_000_000, &want)?);
    assert!(rt; rows_are(rt.alloc(), &messages, 0, 1_000_000_000, &[])?);
    Ok(())
}

#[test]
fn messages_of_one_pair_are_added(rt: HostRuntime) -> Result<(), Fail> {
    let messages = [
        message(3, 4, 5, 30, 2),
        message(3, 4, 5, 6, 4),
        message(3, 4, 10, 20, 0),
    ];
    let first_two = row_of_pair(3, 4, [2, 6, 26, 25, 0]);
    assert!(rt; rows_are(rt.alloc(), &messages, 5, 10, &[first_two])?);
    Ok(())
}

// Those sent at 4 and at 10 are outside of [5, 10).
#[test]
fn several_pairs(rt: HostRuntime) -> Result<(), Fail> {
    let messages = [
        message(2, 1, 5, 9, 10),
        message(1, 3, 6, 6, 20),
        message(1, 2, 7, 10, 30),
        message(2, 1, 8, 3, 40),
        message(1, 3, 9, 19, 50),
        message(2, 1, 10, 11, 60),
        message(3, 3, 4, 8, 70),
    ];
    let want = [
        row_of_pair(1, 2, [1, 30, 3, 3, 0]),
        row_of_pair(1, 3, [2, 70, 10, 10, 0]),
        row_of_pair(2, 1, [2, 50, 4, 4, 1]),
    ];
    assert!(rt; rows_are(rt.alloc(), &messages, 5, 10, &want)?);
    Ok(())
}
