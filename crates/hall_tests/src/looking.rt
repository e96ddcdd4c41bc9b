ghost use Rattle.std.specs.Prelude.{◌≡◌, [], ◌∷◌, IfOk};
ghost use Rattle.node_key.specs.Examples.{tenth};
ghost use Rattle.node_key.specs.Stakes.{HasStakes, stake};
ghost use Rattle.whole_profiles.specs.Whole.{whole_profile};

use crate::samples::stake_f;
use hall_trait::{Hall, HallFault};
use plain_hall::PlainHall;
use std::alloc::Global;
use std::process::Abort;
use std::sync::Wait;
use std::test::Fail;
use test_halls::RefusingHall;
use trace_base::{Memory, PathProfile, PathRow, Profile, Row, Seq};
use whole_profiles::{Entry, MemoKind};

/// f is called once, and runs for a tenth of a second.
const ROW_OF_F: Row = Row {
    func: 2,
    calls: 1,
    incl: 100_000_000,
    excl: 100_000_000,
};

/// So is its path, which is f alone.
const PATH_OF_F: PathRow = PathRow {
    depth: 1,
    func: 2,
    calls: 1,
    incl: 100_000_000,
    excl: 100_000_000,
};

/// What is found of the profiles of f.
#[derive(Clone, Copy, Debug, PartialEq, Eq)]
enum Found {
    Nothing,
    Flat,
    Paths,
    Other,
}

// f's whole profile of this kind: no time is without a call.
fn profile_of_f(alloc: Global, kind: MemoKind) -> Result<Entry, Memory>
    ensures { IfOk result (λ e. e ≡ whole_profile kind tenth) }
{
    match kind {
        MemoKind::Flat => {
            let rows = Seq::from_slice(alloc, &[ROW_OF_F])?;
            Ok(Entry::Flat(Profile { bare: 0, rows }))
        }
        MemoKind::Paths => {
            let rows = Seq::from_slice(alloc, &[PATH_OF_F])?;
            Ok(Entry::Paths(PathProfile { bare: 0, rows }))
        }
    }
}

// Which of the two it is.
fn which_is(entry: Option<Entry>) -> Found {
    match entry {
        None => Found::Nothing,
        Some(Entry::Flat(profile))
            if profile.bare == 0 && profile.rows.as_slice() == [ROW_OF_F].as_slice() => Found::Flat,
        Some(Entry::Paths(profile))
            if profile.bare == 0 && profile.rows.as_slice() == [PATH_OF_F].as_slice() =>
            Found::Paths,
        Some(_) => Found::Other,
    }
}

// Looks for a profile of f.
fn look<R: Abort + Wait, H: Hall>(hall: &mut H, rt: &R, f: u64, kind: MemoKind) -> Found
    requires { HasStakes (H.view hall.old).seat.stakes (stake f tenth ∷ []) }
    ensures { (H.view hall.new).seat ≡ (H.view hall.old).seat }
{
    match hall.memo_look(rt, f, kind) {
        Ok(entry) => which_is(entry),
        Err(_) => panic!(rt; "refused"),
    }
}

// Keeps a profile of f.
fn fill<R: Wait, H: Hall>(
    hall: &mut H,
    rt: &R,
    alloc: Global,
    f: u64,
    kind: MemoKind,
) -> Result<(), Memory>
    requires { HasStakes (H.view hall.old).seat.stakes (stake f tenth ∷ []) }
    ensures { (H.view hall.new).seat ≡ (H.view hall.old).seat }
{
    let entry = profile_of_f(alloc, kind)?;
    hall.memo_fill(rt, f, kind, entry);
    Ok(())
}

// Under one number two kinds are kept, each once it is filled in.
fn fill_both<R: Abort + Wait, H: Hall>(
    hall: &mut H,
    rt: &R,
    alloc: Global,
    f: u64,
) -> Result<(), Fail>
    requires { HasStakes (H.view hall.old).seat.stakes (stake f tenth ∷ []) }
    ensures { (H.view hall.new).seat ≡ (H.view hall.old).seat }
{
    assert_eq!(rt; look(hall, rt, f, MemoKind::Flat), Found::Nothing);
    fill(hall, rt, alloc, f, MemoKind::Flat)?;
    assert_eq!(rt; look(hall, rt, f, MemoKind::Flat), Found::Flat);
    assert_eq!(rt; look(hall, rt, f, MemoKind::Paths), Found::Nothing);
    fill(hall, rt, alloc, f, MemoKind::Paths)?;
    assert_eq!(rt; look(hall, rt, f, MemoKind::Paths), Found::Paths);
    assert_eq!(rt; look(hall, rt, f, MemoKind::Flat), Found::Flat);
    Ok(())
}

// The profiles of f go with its number: interned again it has another.
fn fill_and_release<R: Abort + Wait, H: Hall>(
    hall: &mut H,
    rt: &R,
    alloc: Global,
) -> Result<(), Fail> {
    let (f, new) = stake_f(hall, rt);
    assert_eq!(rt; (f, new), (0, true));
    fill_both(hall, rt, alloc, f)?;
    hall.release(rt, f);
    let (later, new) = stake_f(hall, rt);
    assert_eq!(rt; (later, new), (16, true));
    assert_eq!(rt; look(hall, rt, later, MemoKind::Flat), Found::Nothing);
    Ok(())
}

#[test]
fn a_profile_is_found_once_it_is_filled_in(rt: HostRuntime) -> Result<(), Fail> {
    let mut hall = PlainHall::new(rt.alloc())?;
    fill_and_release(&mut hall, &rt, rt.alloc())
}

// Looks for the flat profile of f, which finds no memory.
fn look_in_vain<R: Abort + Wait, H: Hall>(hall: &mut H, rt: &R, f: u64)
    requires { HasStakes (H.view hall.old).seat.stakes (stake f tenth ∷ []) }
    ensures { (H.view hall.new).seat ≡ (H.view hall.old).seat }
{
    match hall.memo_look(rt, f, MemoKind::Flat) {
        Ok(_) => panic!(rt; "found"),
        Err(fault) => assert_eq!(rt; fault, HallFault::Memory),
    }
}

// Without memory for a look, what is kept is kept still.
fn look_twice<R: Abort + Wait, H: Hall>(hall: &mut H, rt: &R, alloc: Global) -> Result<(), Fail> {
    let (f, _) = stake_f(hall, rt);
    fill(hall, rt, alloc, f, MemoKind::Flat)?;
    look_in_vain(hall, rt, f);
    assert_eq!(rt; look(hall, rt, f, MemoKind::Flat), Found::Flat);
    Ok(())
}

#[test]
fn a_look_without_memory_changes_nothing(rt: HostRuntime) -> Result<(), Fail> {
    let mut hall = RefusingHall::over(PlainHall::new(rt.alloc())?, 1);
    look_twice(&mut hall, &rt, rt.alloc())
}
