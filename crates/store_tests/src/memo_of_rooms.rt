use memo_rooms::{MEMO_ROOMS, MemoRooms};
use std::alloc::Global;
use std::process::Abort;
use std::test::Fail;
use trace_base::{Memory, PathProfile, PathRow, Profile, Row, Seq};
use whole_profiles::{Entry, MemoKind};

const _: () = prove!(MEMO_ROOMS == 4);

// Keeps a flat profile of so many nanoseconds in which one call of each of so many functions took none.
fn fill_flat(
    memo: &mut MemoRooms,
    alloc: Global,
    n: u64,
    time: u64,
    count: u32,
) -> Result<(), Memory> {
    let mut rows = Seq::new(alloc);
    for func in 0..count {
        rows.push(Row {
            func,
            calls: 1,
            incl: 0,
            excl: 0,
        })?;
    }
    let bare = u128::from(time);
    memo.fill(n, MemoKind::Flat, Entry::Flat(Profile { bare, rows }));
    Ok(())
}

// Keeps a call-tree profile of so many nanoseconds in which no call was open.
fn fill_paths(memo: &mut MemoRooms, alloc: Global, n: u64, time: u64) {
    let rows: Seq<PathRow> = Seq::new(alloc);
    let bare = u128::from(time);
    memo.fill(n, MemoKind::Paths, Entry::Paths(PathProfile { bare, rows }));
}

// The time in which no call was open, of the profile that is kept; `None` where none is, or one of the other
// kind.
fn time_kept(memo: &mut MemoRooms, n: u64, kind: MemoKind) -> Result<Option<u128>, Memory> {
    match (kind, memo.look(n, kind)?) {
        (MemoKind::Flat, Some(Entry::Flat(found))) => Ok(Some(found.bare)),
        (MemoKind::Paths, Some(Entry::Paths(found))) => Ok(Some(found.bare)),
        _ => Ok(None),
    }
}

#[test]
fn numbers_in_a_row_stand_in_their_rooms(rt: HostRuntime) -> Result<(), Fail> {
    let alloc = rt.alloc();
    let mut memo = MemoRooms::new(alloc)?;
    for n in 8..12 {
        fill_flat(&mut memo, alloc, n, 10 * n, 0)?;
    }
    assert_eq!(rt; time_kept(&mut memo, 8, MemoKind::Flat)?, Some(80));
    assert_eq!(rt; time_kept(&mut memo, 9, MemoKind::Flat)?, Some(90));
    assert_eq!(rt; time_kept(&mut memo, 10, MemoKind::Flat)?, Some(100));
    assert_eq!(rt; time_kept(&mut memo, 11, MemoKind::Flat)?, Some(110));
    assert_eq!(rt; time_kept(&mut memo, 12, MemoKind::Flat)?, None);
    assert_eq!(rt; time_kept(&mut memo, 0, MemoKind::Flat)?, None);
    Ok(())
}

#[test]
fn two_kinds_under_one_number(rt: HostRuntime) -> Result<(), Fail> {
    let alloc = rt.alloc();
    let mut memo = MemoRooms::new(alloc)?;
    fill_flat(&mut memo, alloc, 6, 60, 2)?;
    assert_eq!(rt; time_kept(&mut memo, 6, MemoKind::Paths)?, None);
    fill_paths(&mut memo, alloc, 6, 61);
    assert_eq!(rt; time_kept(&mut memo, 6, MemoKind::Flat)?, Some(60));
    assert_eq!(rt; time_kept(&mut memo, 6, MemoKind::Paths)?, Some(61));
    Ok(())
}

#[test]
fn of_65_rows_nothing_is_kept(rt: HostRuntime) -> Result<(), Fail> {
    let alloc = rt.alloc();
    let mut memo = MemoRooms::new(alloc)?;
    fill_flat(&mut memo, alloc, 3, 30, 65)?;
    assert_eq!(rt; time_kept(&mut memo, 3, MemoKind::Flat)?, None);
    fill_flat(&mut memo, alloc, 3, 31, 64)?;
    assert_eq!(rt; time_kept(&mut memo, 3, MemoKind::Flat)?, Some(31));
    Ok(())
}

#[test]
fn a_look_before_a_fill_and_after_it(rt: HostRuntime) -> Result<(), Fail> {
    let alloc = rt.alloc();
    let mut memo = MemoRooms::new(alloc)?;
    assert_eq!(rt;
        time_kept(&mut memo, 18_446_744_073_709_551_615, MemoKind::Flat)?,
        None
    );
    fill_flat(&mut memo, alloc, 18_446_744_073_709_551_615, 5, 1)?;
    assert_eq!(rt;
        time_kept(&mut memo, 18_446_744_073_709_551_615, MemoKind::Flat)?,
        Some(5)
    );
    fill_flat(&mut memo, alloc, 18_446_744_073_709_551_615, 7, 1)?;
    assert_eq!(rt;
        time_kept(&mut memo, 18_446_744_073_709_551_615, MemoKind::Flat)?,
        Some(7)
    );
    assert_eq!(rt; time_kept(&mut memo, 3, MemoKind::Flat)?, None);
    Ok(())
}
