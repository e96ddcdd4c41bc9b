ghost use Rattle.std.specs.Prelude.{◌≡◌, ◌-◌, ◌≤◌, [], ◌∷◌, IfOk, map};
ghost use Rattle.std.specs.List.{range_with_len};
ghost use Rattle.hall_history.specs.Seat.{ExchangesStakes};
ghost use Rattle.hall_tests.specs.Nested.{one_call_of, outermost};
ghost use Rattle.node_key.specs.Stakes.{HasStakes, IsOverStakes, stake};
ghost use Rattle.whole_profiles.specs.Whole.{whole_profile};
ghost use Rattle.whole_profiles.specs.declared.memo_kind.MemoKind.TheVariants.{Flat};

use crate::samples::staked;
use hall_trait::Hall;
use node_key::{Kid, NodeKey};
use plain_hall::PlainHall;
use std::alloc::Global;
use std::process::Abort;
use std::sync::Wait;
use std::test::Fail;
use trace_base::{Memory, Profile, Row, Seq};
use whole_profiles::{Entry, MemoKind};

// The call of function 1, in which no other lies.
fn key_of_innermost() -> NodeKey
    ensures { IsOverStakes (outermost 1) [] result }
{
    NodeKey::leaf(1, 0)
}

// The call of a function, in which that of the function before it lies.
fn key_of_call(func: u32, inner: u64) -> NodeKey
    requires some { 2 ≤ func }
    requires few { func ≤ 65 }
    ensures { IsOverStakes (outermost func) (stake inner (outermost (func - 1)) ∷ []) result }
{
    let call = Kid {
        gap: 0,
        span: 0,
        node: inner,
    };
    NodeKey::over(func, 0, (func - 1) as u16, &[call])
}

// Interns calls of so many functions that lie in one another, from the innermost on.
fn stake_nested<R: Abort + Wait, H: Hall>(hall: &mut H, rt: &R, count: u32) -> u64
    requires some { 1 ≤ count }
    requires few { count ≤ 65 }
    ensures { ExchangesStakes (H.view hall.old).seat (H.view hall.new).seat [] (stake result (outermost count)
        ∷ []) }
{
    let (innermost, _) = staked(hall, rt, key_of_innermost());
    let mut n = innermost;
    for func in 2..count + 1 {
        let (over, _) = staked(hall, rt, key_of_call(func, n));
        n = over;
    }
    n
}

// A row for each of these calls.
fn rows_of_nested(alloc: Global, count: u32) -> Result<Seq<Row>, Memory>
    requires { count ≤ 65 }
    ensures { IfOk result (λ rows. rows ≡ map one_call_of (range_with_len 1 count)) }
{
    let mut rows = Seq::new(alloc);
    for func in 1..count + 1 {
        rows.push(Row {
            func,
            calls: 1,
            incl: 0,
            excl: 0,
        })?;
    }
    Ok(rows)
}

// Their whole flat profile.
fn profile_of_nested(alloc: Global, count: u32) -> Result<Entry, Memory>
    requires some { 1 ≤ count }
    requires few { count ≤ 65 }
    ensures { IfOk result (λ e. e ≡ whole_profile Flat (outermost count)) }
{
    let rows = rows_of_nested(alloc, count)?;
    Ok(Entry::Flat(Profile { bare: 0, rows }))
}

// How many rows are found of this profile.
fn rows_kept<R: Abort + Wait, H: Hall>(hall: &mut H, rt: &R, n: u64, count: u32) -> Option<usize>
    requires { HasStakes (H.view hall.old).seat.stakes (stake n (outermost count) ∷ []) }
    ensures { (H.view hall.new).seat ≡ (H.view hall.old).seat }
{
    match hall.memo_look(rt, n, MemoKind::Flat) {
        Ok(Some(Entry::Flat(profile))) => Some(profile.rows.len()),
        Ok(_) => None,
        Err(_) => panic!(rt; "refused"),
    }
}

// Fills in the profile of so many calls, and tells how many rows of it are found then.
fn fill_nested<R: Abort + Wait, H: Hall>(
    hall: &mut H,
    rt: &R,
    alloc: Global,
    count: u32,
) -> Result<Option<usize>, Fail>
    requires some { 1 ≤ count }
    requires few { count ≤ 65 }
{
    let n = stake_nested(hall, rt, count);
    let entry = profile_of_nested(alloc, count)?;
    hall.memo_fill(rt, n, MemoKind::Flat, entry);
    let kept = rows_kept(hall, rt, n, count);
    hall.release(rt, n);
    Ok(kept)
}

#[test]
fn a_profile_of_65_rows_is_not_kept(rt: HostRuntime) -> Result<(), Fail> {
    let mut hall = PlainHall::new(rt.alloc())?;
    assert_eq!(rt; fill_nested(&mut hall, &rt, rt.alloc(), 64)?, Some(64));
    assert_eq!(rt; fill_nested(&mut hall, &rt, rt.alloc(), 65)?, None);
    Ok(())
}
