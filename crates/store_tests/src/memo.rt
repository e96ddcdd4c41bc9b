use memo_core::{Entry, MEMO_ENTRIES, MEMO_ROWS, Memo, MemoKind};
use std::alloc::Global;
use std::process::Abort;
use std::test::Fail;
use trace_base::{Memory, PathProfile, PathRow, Profile, Row, Seq};

const _: () = prove!(MEMO_ENTRIES == 4_096);

const _: () = prove!(MEMO_ROWS == 64);

// Rows of so many functions, from 1 on.
fn rows_of(alloc: Global, count: u32) -> Result<Seq<Row>, Memory> {
    let mut rows = Seq::new(alloc);
    for n in 0..count {
        rows.push(Row {
            func: n + 1,
            calls: 1,
            incl: 5,
            excl: 3,
        })?;
    }
    Ok(rows)
}

// Rows of so many paths, each of one function, from 1 on.
fn path_rows_of(alloc: Global, count: u32) -> Result<Seq<PathRow>, Memory> {
    let mut rows = Seq::new(alloc);
    for n in 0..count {
        rows.push(PathRow {
            depth: 1,
            func: n + 1,
            calls: 1,
            incl: 5,
            excl: 3,
        })?;
    }
    Ok(rows)
}

// Keeps a flat profile of so many nanoseconds in which no call was open, and of these rows.
fn fill_flat(memo: &mut Memo, n: u64, time: u64, rows: Seq<Row>) {
    let bare = u128::from(time);
    memo.fill(n, MemoKind::Flat, Entry::Flat(Profile { bare, rows }));
}

// Keeps a call-tree profile.
fn fill_paths(memo: &mut Memo, n: u64, time: u64, rows: Seq<PathRow>) {
    let bare = u128::from(time);
    memo.fill(n, MemoKind::Paths, Entry::Paths(PathProfile { bare, rows }));
}

// Keeps flat profiles of the numbers from 0 on, below `end`, each of as many nanoseconds.
fn fill_all(memo: &mut Memo, alloc: Global, end: u64) {
    for n in 0..end {
        fill_flat(memo, n, n, Seq::new(alloc));
    }
}

// Whether there is nothing of this number and kind.
fn is_absent(memo: &mut Memo, n: u64, kind: MemoKind) -> Result<bool, Memory> {
    Ok(memo.look(n, kind)?.is_none())
}

// Whether the flat profile of a number is of so many nanoseconds, and of these rows.
fn is_flat(memo: &mut Memo, n: u64, time: u64, rows: &[Row]) -> Result<bool, Memory> {
    match memo.look(n, MemoKind::Flat)? {
        Some(Entry::Flat(found)) => {
            Ok(found.bare == u128::from(time) && found.rows.as_slice() == rows)
        }
        _ => Ok(false),
    }
}

// Likewise of the call-tree profile.
fn is_paths(memo: &mut Memo, n: u64, time: u64, rows: &[PathRow]) -> Result<bool, Memory> {
    match memo.look(n, MemoKind::Paths)? {
        Some(Entry::Paths(found)) => {
            Ok(found.bare == u128::from(time) && found.rows.as_slice() == rows)
        }
        _ => Ok(false),
    }
}

// How many of the numbers from `from` on, below `end`, have a flat profile of as many nanoseconds.
fn numbers_there(memo: &mut Memo, from: u64, end: u64) -> Result<u64, Memory> {
    let mut there: u64 = 0;
    for n in from..end {
        if is_flat(memo, n, n, &[])? {
            there = there.saturating_add(1);
        }
    }
    Ok(there)
}

/// What is done with a room, or found in it.
#[derive(Clone, Copy)]
enum Turn {
    /// The flat profiles of the numbers below this one are kept, each of as many nanoseconds.
    FillAll(u64),
    /// Under a number, a flat profile of so many nanoseconds and rows is kept.
    FillFlat(u64, u64, u32),
    FillPaths(u64, u64, u32),
    /// Under a number, a flat profile of so many nanoseconds and rows is found.
    Flat(u64, u64, u32),
    Paths(u64, u64, u32),
    /// Nothing is found of this number and kind.
    Absent(u64, MemoKind),
    /// Of the numbers from one on, below another, so many have a flat profile of as many nanoseconds.
    There(u64, u64, u64),
}

fn take<R: Abort>(rt: &R, alloc: Global, memo: &mut Memo, turn: Turn) -> Result<(), Memory> {
    match turn {
        Turn::FillAll(end) => fill_all(memo, alloc, end),
        Turn::FillFlat(n, time, count) => fill_flat(memo, n, time, rows_of(alloc, count)?),
        Turn::FillPaths(n, time, count) => fill_paths(memo, n, time, path_rows_of(alloc, count)?),
        Turn::Flat(n, time, count) => {
            let rows = rows_of(alloc, count)?;
            assert!(rt; is_flat(memo, n, time, rows.as_slice())?);
        }
        Turn::Paths(n, time, count) => {
            let rows = path_rows_of(alloc, count)?;
            assert!(rt; is_paths(memo, n, time, rows.as_slice())?);
        }
        Turn::Absent(n, kind) => assert!(rt; is_absent(memo, n, kind)?),
        Turn::There(from, end, count) => { assert_eq!(rt; numbers_there(memo, from, end)?, count) }
    }
    Ok(())
}

// These turns are taken in a room, one after the other.
fn take_all<R: Abort>(
    rt: &R,
    alloc: Global,
    memo: &mut Memo,
    turns: &[Turn],
) -> Result<(), Memory> {
    for turn in turns {
        take(rt, alloc, memo, *turn)?;
    }
    Ok(())
}

// They are taken in a new room.
fn play<R: Abort>(rt: &R, alloc: Global, turns: &[Turn]) -> Result<(), Fail> {
    let mut memo = Memo::new(alloc)?;
    Ok(take_all(rt, alloc, &mut memo, turns)?)
}

const ONE_TOO_MANY: [Turn; 3] = [
    Turn::FillAll(4_097),
    Turn::Absent(0, MemoKind::Flat),
    Turn::There(1, 4_097, 4_096),
];

#[test]
fn of_4097_numbers_the_first_is_lost(rt: HostRuntime) -> Result<(), Fail> {
    play(&rt, rt.alloc(), &ONE_TOO_MANY)
}

const LOOKED_UP: [Turn; 6] = [
    Turn::FillAll(4_096),
    Turn::Flat(0, 0, 0),
    Turn::FillFlat(4_096, 4_096, 0),
    Turn::Flat(0, 0, 0),
    Turn::Absent(1, MemoKind::Flat),
    Turn::There(2, 4_097, 4_095),
];

#[test]
fn a_number_looked_up_is_kept_and_the_next_lost(rt: HostRuntime) -> Result<(), Fail> {
    play(&rt, rt.alloc(), &LOOKED_UP)
}

const KNOWN_IN_A_FULL_ROOM: [Turn; 4] = [
    Turn::FillAll(4_096),
    Turn::FillFlat(7, 100, 0),
    Turn::Flat(7, 100, 0),
    Turn::There(0, 4_096, 4_095),
];

#[test]
fn a_known_number_loses_none_in_a_full_room(rt: HostRuntime) -> Result<(), Fail> {
    play(&rt, rt.alloc(), &KNOWN_IN_A_FULL_ROOM)
}

const BOTH_KINDS: [Turn; 4] = [
    Turn::FillFlat(1, 10, 0),
    Turn::FillPaths(1, 11, 1),
    Turn::Flat(1, 10, 0),
    Turn::Paths(1, 11, 1),
];

#[test]
fn both_kinds_of_one_number(rt: HostRuntime) -> Result<(), Fail> {
    play(&rt, rt.alloc(), &BOTH_KINDS)
}

const THREE_ROWS: [Turn; 2] = [Turn::FillFlat(9, 2, 3), Turn::Flat(9, 2, 3)];

#[test]
fn rows_of_a_copy(rt: HostRuntime) -> Result<(), Fail> {
    play(&rt, rt.alloc(), &THREE_ROWS)
}

const MANY_ROWS: [Turn; 6] = [
    Turn::FillFlat(3, 0, 64),
    Turn::Flat(3, 0, 64),
    Turn::FillFlat(3, 0, 65),
    Turn::Flat(3, 0, 64),
    Turn::FillFlat(4, 0, 65),
    Turn::Absent(4, MemoKind::Flat),
];

#[test]
fn of_64_rows_it_is_kept_and_of_65_the_older_one(rt: HostRuntime) -> Result<(), Fail> {
    play(&rt, rt.alloc(), &MANY_ROWS)
}

const NEVER_FILLED: [Turn; 4] = [
    Turn::Absent(1, MemoKind::Flat),
    Turn::FillFlat(1, 10, 0),
    Turn::Absent(1, MemoKind::Paths),
    Turn::Absent(2, MemoKind::Flat),
];

#[test]
fn what_was_never_filled_isnt_there(rt: HostRuntime) -> Result<(), Fail> {
    play(&rt, rt.alloc(), &NEVER_FILLED)
}
