ghost use Rattle.std.specs.Prelude.{◌≡◌, ◌^◌, ◌<◌, ◌==◌, length, sum_by, position, All, OnOk, OnErr, IsOk};
ghost use Rattle.profile_math.specs.Closing.{closed, closed_rows};
ghost use Rattle.trace_base.specs.Flat.{stands};
ghost use Rattle.profile_math.specs.Sum.{sum_of, row_place, row_plus, row_count, RisesByFunction, RowFits};
ghost use Rattle.profile_math.specs.Sum.{ProfileFits};

use crate::merging::{Summand, add_rows};
use crate::sums::Sums;
use std::alloc::Global;
use std::cmp::Ordering;
use trace_base::{Memory, Profile, Row, Seq};

impl Summand for Row {
    ghost place = { row_place };

    ghost plus = { row_plus };

    ghost fits = { RowFits };

    fn compare(self, other: Row) -> Ordering {
        self.func.cmp(&other.func)
    }

    fn add(self, other: Row) -> Row {
        Row {
            func: self.func,
            calls: self.calls + other.calls,
            incl: self.incl + other.incl,
            excl: self.excl + other.excl,
        }
    }
}

// The time in which any call was open.
fn time_in_calls(rows: &[Row]) -> u128
    requires { sum_by (λ r. r.excl) rows.now < 2 ^ 128 }
    ensures { result ≡ sum_by (λ r. r.excl) rows.now }
{
    rows.iter().map(|row| row.excl).sum()
}

// Where the row of the function stands, if it has one.
fn place_of(rows: &[Row], func: u32) -> Option<usize>
    ensures { result ≡ position (λ r. r.func == func) rows.now }
{
    rows.iter().position(|row| row.func == func)
}

// Whether the row tells a call or time.
fn holds_anything(row: &Row) -> bool
    ensures { result ≡ stands row.now }
{
    row.calls > 0 || row.incl > 0
}

// Puts a call over the rows: its row's calls and exclusive time are added to those of its function, and its
// inclusive time takes the place of theirs. A new row that would hold nothing isn't added. On `Memory` the
// rows are as before.
fn close_rows(rows: &mut Seq<Row>, call: Row) -> Result<(), Memory>
    requires ordered { RisesByFunction rows.old }
    requires fits { All RowFits (closed_rows rows.old call) }
    ensures ok { OnOk result (rows.new ≡ closed_rows rows.old call) }
    ensures err { OnErr result (rows.new ≡ rows.old) }
    ensures in_place { length (closed_rows rows.old call) ≡ length rows.old → IsOk result }
    ensures ordered { RisesByFunction rows.new }
{
    match place_of(rows.as_slice(), call.func) {
        Some(at) => {
            let own = rows.as_slice()[at];
            let closed = Row {
                calls: own.calls + call.calls,
                excl: own.excl + call.excl,
                ..call
            };
            rows.set(at, closed);
            Ok(())
        }
        None if holds_anything(&call) => add_rows(rows, &[call]),
        None => Ok(()),
    }
}

impl Sums for Profile {
    ghost is_ordered = { λ p. RisesByFunction p.rows };

    ghost fits = { ProfileFits };

    ghost count = { row_count };

    ghost sum = { sum_of };

    ghost closing = { closed };

    fn add(&mut self, other: &Profile) -> Result<(), Memory> {
        add_rows(&mut self.rows, other.rows.as_slice())?;
        self.bare += other.bare;
        Ok(())
    }

    fn close_over(&mut self, func: u32, begun: bool) -> Result<(), Memory> {
        let call = Row {
            func,
            calls: u64::from(begun),
            incl: self.bare + time_in_calls(self.rows.as_slice()),
            excl: self.bare,
        };
        close_rows(&mut self.rows, call)?;
        self.bare = 0;
        Ok(())
    }

    fn copy(&self, alloc: Global) -> Result<Profile, Memory> {
        Ok(Profile {
            bare: self.bare,
            rows: Seq::from_slice(alloc, self.rows.as_slice())?,
        })
    }
}
