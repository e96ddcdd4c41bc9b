ghost use Rattle.std.specs.Prelude.{◌≡◌, ◌+◌, ◌≤◌, ◌++◌, length, take, drop, replicate, All, OnOk, OnErr};
ghost use Rattle.std.specs.Prelude.{IsOk};
ghost use Rattle.profile_math.specs.Merging.{merged, turn_of};

use std::cmp::Ordering;
use trace_base::{Memory, Seq};

/// A row of a profile, which stands at a place among the rows, and to which a row of the same place can be
/// added.
pub trait Summand: Copy {
    ghost use Rattle.std.specs.declared.cmp.Ordering.{Ordering};

    ghost place: { Self → Self → Ordering };

    ghost plus: { Self → Self → Self };

    ghost fits: { Self → Type 0 };

    /// Which of the two rows stands first.
    fn compare(self, other: Self) -> Ordering
        ensures { result ≡ place self other };

    /// The row with the numbers of both.
    fn add(self, other: Self) -> Self
        requires { fits (plus self other) }
        ensures { result ≡ plus self other };
}

// Whether the row at an index stands before a row, at its place or behind it. Behind the last row nothing
// stands.
fn turn<R: Summand>(rows: &[R], at: usize, row: R) -> Ordering
    requires { at ≤ length rows.now }
    ensures { result ≡ turn_of R.place (drop at rows.now) row }
{
    if at < rows.len() {
        rows[at].compare(row)
    } else {
        Ordering::Greater
    }
}

// How many rows the merged list has more than the first.
fn count_missing<R: Summand>(rows: &[R], others: &[R]) -> usize
    ensures exact { result + length rows.now ≡ length (merged R.place R.plus rows.now others.now) }
    ensures few { result ≤ length others.now }
{
    let mut missing = 0;
    let mut at = 0;
    let mut next = 0;
    while next < others.len() {
        match turn(rows, at, others[next]) {
            Ordering::Less => at += 1,
            Ordering::Equal => {
                at += 1;
                next += 1;
            }
            Ordering::Greater => {
                missing += 1;
                next += 1;
            }
        }
    }
    missing
}

// Merges the rows from an index on with others, into the list from its front. There is room for just the
// merged rows.
fn merge_from<R: Summand>(rows: &mut Seq<R>, from: usize, others: &[R])
    requires start { from ≤ length rows.old }
    requires room { length rows.old ≡ length (merged R.place R.plus (drop from rows.old) others.now) }
    requires fits { All R.fits (merged R.place R.plus (drop from rows.old) others.now) }
    ensures { rows.new ≡ merged R.place R.plus (drop from rows.old) others.now }
{
    let mut at = from;
    let mut next = 0;
    let mut place = 0;
    while next < others.len() {
        let row = others[next];
        match turn(rows.as_slice(), at, row) {
            Ordering::Less => {
                let own = rows.as_slice()[at];
                rows.set(place, own);
                at += 1;
            }
            Ordering::Equal => {
                let own = rows.as_slice()[at];
                rows.set(place, own.add(row));
                at += 1;
                next += 1;
            }
            Ordering::Greater => {
                rows.set(place, row);
                next += 1;
            }
        }
        place += 1;
    }
}

// Takes the last rows away, down to so many.
fn shorten<R: Summand>(rows: &mut Seq<R>, len: usize)
    requires { len ≤ length rows.old }
    ensures { rows.new ≡ take len rows.old }
{
    while rows.len() > len {
        let _ = rows.pop();
    }
}

// Adds so many copies of the row at the end. On `Memory` the list is as before.
fn lengthen<R: Summand>(rows: &mut Seq<R>, more: usize, filler: R) -> Result<(), Memory>
    ensures ok { OnOk result (rows.new ≡ rows.old ++ replicate more filler) }
    ensures err { OnErr result (rows.new ≡ rows.old) }
{
    let len = rows.len();
    for _i in 0..more {
        if rows.push(filler).is_err() {
            shorten(rows, len);
            return Err(Memory);
        }
    }
    Ok(())
}

// Moves the first rows of the list to its end, over what is there.
fn shift<R: Summand>(rows: &mut Seq<R>, len: usize, by: usize)
    requires { length rows.old ≡ len + by }
    ensures length { length rows.new ≡ length rows.old }
    ensures moved { drop by rows.new ≡ take len rows.old }
{
    let mut left = len;
    while left > 0 {
        left -= 1;
        let row = rows.as_slice()[left];
        rows.set(left + by, row);
    }
}

// Makes room for so many rows in front of the list, which are copies of some rows. On `Memory` the list is
// as before.
fn make_room<R: Summand>(rows: &mut Seq<R>, more: usize, filler: R) -> Result<(), Memory>
    ensures room { OnOk result (length rows.new ≡ more + length rows.old) }
    ensures moved { OnOk result (drop more rows.new ≡ rows.old) }
    ensures err { OnErr result (rows.new ≡ rows.old) }
    ensures none { more ≡ 0 → IsOk result }
{
    if more == 0 {
        return Ok(());
    }
    let len = rows.len();
    lengthen(rows, more, filler)?;
    shift(rows, len, more);
    Ok(())
}

/// Merges the rows of another list into the list. Where each of them stands at the place of a row of the list
/// this takes no memory. On `Memory` the list is as before.
pub fn add_rows<R: Summand>(rows: &mut Seq<R>, others: &[R]) -> Result<(), Memory>
    requires { All R.fits (merged R.place R.plus rows.old others.now) }
    ensures ok { OnOk result (rows.new ≡ merged R.place R.plus rows.old others.now) }
    ensures err { OnErr result (rows.new ≡ rows.old) }
    ensures in_place { length (merged R.place R.plus rows.old others.now) ≡ length rows.old → IsOk result }
{
    if others.is_empty() {
        return Ok(());
    }
    let missing = count_missing(rows.as_slice(), others);
    make_room(rows, missing, others[0])?;
    merge_from(rows, missing, others);
    Ok(())
}
