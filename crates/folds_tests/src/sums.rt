ghost use Rattle.std.specs.Prelude.{◌≡◌, [], ◌∷◌, IfOk};
ghost use Rattle.profile_math.specs.PathSum.{IsDepthFirst};
ghost use Rattle.profile_math.specs.Sum.{RisesByFunction};

use profile_math::Sums;
use std::alloc::Global;
use std::test::Fail;
use trace_base::{Memory, PathProfile, PathRow, Profile, Row, Seq};

fn row(func: u32, calls: u64, incl: u128, excl: u128) -> Row
    ensures { result ≡ record { func = func; calls = calls; incl = incl; excl = excl } }
{
    Row {
        func,
        calls,
        incl,
        excl,
    }
}

/// Whether the profile is this one.
fn is(profile: &Profile, bare: u128, rows: &[Row]) -> bool {
    profile.bare == bare && profile.rows.as_slice() == rows
}

/// A profile of one row, which stands in order.
#[tactic(auto, using(crate::proofs::TestProfiles::one_rises))]
fn one(alloc: Global, bare: u128, only: Row) -> Result<Profile, Memory>
    ensures is { IfOk result (λ p. p ≡ record { bare = bare; rows = only ∷ [] }) }
    ensures ordered { IfOk result (λ p. RisesByFunction p.rows) }
{
    Ok(Profile {
        bare,
        rows: Seq::from_slice(alloc, &[only])?,
    })
}

/// A profile of the functions 5 and 9.
fn two(alloc: Global) -> Result<Profile, Memory>
    ensures is { IfOk result (λ p. p ≡ record {
      bare = 4;
      rows = record { func = 5; calls = 2; incl = 9; excl = 8 }
          ∷ record { func = 9; calls = 1; incl = 3; excl = 2 } ∷ [];
    }) }
    ensures ordered { IfOk result (λ p. RisesByFunction p.rows) }
{
    let rows = [row(5, 2, 9, 8), row(9, 1, 3, 2)];
    Ok(Profile {
        bare: 4,
        rows: Seq::from_slice(alloc, &rows)?,
    })
}

#[tactic(auto, using(crate::proofs::TestProfiles::around_fits))]
#[test]
fn rows_are_added_around_another(rt: HostRuntime) -> Result<(), Fail> {
    let alloc = rt.alloc();
    let mut sum = one(alloc, 3, row(7, 1, 2, 2))?;
    let other = two(alloc)?;
    sum.add(&other)?;
    assert!(rt;
        is(
            &sum,
            7,
            &[row(5, 2, 9, 8), row(7, 1, 2, 2), row(9, 1, 3, 2)]
        )
    );
    Ok(())
}

#[tactic(auto, using(crate::proofs::TestProfiles::same_fits))]
#[test]
fn rows_of_one_function_are_added(rt: HostRuntime) -> Result<(), Fail> {
    let alloc = rt.alloc();
    let mut sum = one(alloc, 0, row(1, 2, 4, 4))?;
    let other = one(alloc, 0, row(1, 0, 6, 6))?;
    sum.add(&other)?;
    assert!(rt; is(&sum, 0, &[row(1, 2, 10, 10)]));
    Ok(())
}

#[tactic(auto, using(crate::proofs::TestProfiles::call_fits))]
#[test]
fn a_call_is_closed_over_its_content(rt: HostRuntime) -> Result<(), Fail> {
    let alloc = rt.alloc();
    let mut content = one(alloc, 3, row(2, 1, 4, 4))?;
    content.close_over(1, true)?;
    assert!(rt; is(&content, 0, &[row(1, 1, 7, 3), row(2, 1, 4, 4)]));
    Ok(())
}

#[test]
fn a_copy_has_the_same_rows(rt: HostRuntime) -> Result<(), Fail> {
    let alloc = rt.alloc();
    let profile = two(alloc)?;
    let copy = profile.copy(alloc)?;
    assert!(rt; is(&copy, 4, &[row(5, 2, 9, 8), row(9, 1, 3, 2)]));
    Ok(())
}

fn path_row(depth: u16, func: u32, calls: u64, incl: u128, excl: u128) -> PathRow
    ensures { result ≡ record { depth = depth; func = func; calls = calls; incl = incl; excl = excl } }
{
    PathRow {
        depth,
        func,
        calls,
        incl,
        excl,
    }
}

/// Whether the profile is this one.
fn are(profile: &PathProfile, bare: u128, rows: &[PathRow]) -> bool {
    profile.bare == bare && profile.rows.as_slice() == rows
}

/// A profile of one path, of one call.
fn one_path(alloc: Global, bare: u128, only: PathRow) -> Result<PathProfile, Memory>
    requires { only.depth ≡ 1 }
    ensures is { IfOk result (λ p. p ≡ record { bare = bare; rows = only ∷ [] }) }
    ensures ordered { IfOk result (λ p. IsDepthFirst p.rows) }
{
    Ok(PathProfile {
        bare,
        rows: Seq::from_slice(alloc, &[only])?,
    })
}

/// A call of function 2 that calls 1.
fn nested(alloc: Global) -> Result<PathProfile, Memory>
    ensures is { IfOk result (λ p. p ≡ record {
      bare = 2;
      rows = record { depth = 1; func = 2; calls = 1; incl = 5; excl = 2 }
          ∷ record { depth = 2; func = 1; calls = 1; incl = 3; excl = 3 } ∷ [];
    }) }
    ensures ordered { IfOk result (λ p. IsDepthFirst p.rows) }
{
    let rows = [path_row(1, 2, 1, 5, 2), path_row(2, 1, 1, 3, 3)];
    Ok(PathProfile {
        bare: 2,
        rows: Seq::from_slice(alloc, &rows)?,
    })
}

#[tactic(auto, using(crate::proofs::TestProfiles::sum_fits))]
#[test]
fn paths_are_added_by_path(rt: HostRuntime) -> Result<(), Fail> {
    let alloc = rt.alloc();
    let mut sum = one_path(alloc, 1, path_row(1, 2, 1, 4, 4))?;
    let other = nested(alloc)?;
    sum.add(&other)?;
    let rows = [path_row(1, 2, 2, 9, 6), path_row(2, 1, 1, 3, 3)];
    assert!(rt; are(&sum, 3, &rows));
    Ok(())
}

#[tactic(auto, using(crate::proofs::TestProfiles::behind_fits))]
#[test]
fn paths_are_added_behind_another(rt: HostRuntime) -> Result<(), Fail> {
    let alloc = rt.alloc();
    let mut sum = one_path(alloc, 1, path_row(1, 1, 1, 4, 4))?;
    let other = nested(alloc)?;
    sum.add(&other)?;
    let rows = [
        path_row(1, 1, 1, 4, 4),
        path_row(1, 2, 1, 5, 2),
        path_row(2, 1, 1, 3, 3),
    ];
    assert!(rt; are(&sum, 3, &rows));
    Ok(())
}

#[tactic(auto, using(crate::proofs::TestProfiles::closing_fits))]
#[test]
fn paths_are_closed_over_a_call(rt: HostRuntime) -> Result<(), Fail> {
    let alloc = rt.alloc();
    let mut content = nested(alloc)?;
    content.close_over(2, true)?;
    let rows = [
        path_row(1, 2, 1, 7, 2),
        path_row(2, 2, 1, 5, 2),
        path_row(3, 1, 1, 3, 3),
    ];
    assert!(rt; are(&content, 0, &rows));
    Ok(())
}

#[test]
fn a_copy_has_the_same_paths(rt: HostRuntime) -> Result<(), Fail> {
    let alloc = rt.alloc();
    let profile = nested(alloc)?;
    let copy = profile.copy(alloc)?;
    assert!(rt;
        are(
            &copy,
            2,
            &[path_row(1, 2, 1, 5, 2), path_row(2, 1, 1, 3, 3)]
        )
    );
    Ok(())
}
