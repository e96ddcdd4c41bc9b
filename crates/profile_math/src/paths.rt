ghost use Rattle.std.specs.Prelude.{◌≡◌, ◌+◌, ◌^◌, ◌<◌, ◌∷◌, map, sum_by, All, OnOk, OnErr};
ghost use Rattle.profile_math.specs.PathClosing.{closed_paths, one_deeper, call_stands};
ghost use Rattle.profile_math.specs.PathSum.{sum_of_paths, path_row_place, path_row_plus, path_row_count};
ghost use Rattle.profile_math.specs.PathSum.{IsDepthFirst, PathRowFits, PathProfileFits};

use crate::merging::{Summand, add_rows};
use crate::sums::Sums;
use std::alloc::Global;
use std::cmp::Ordering;
use trace_base::{Memory, PathProfile, PathRow, Seq};

impl Summand for PathRow {
    ghost place = { path_row_place };

    ghost plus = { path_row_plus };

    ghost fits = { PathRowFits };

    fn compare(self, other: PathRow) -> Ordering {
        match other.depth.cmp(&self.depth) {
            Ordering::Less => Ordering::Less,
            Ordering::Equal => self.func.cmp(&other.func),
            Ordering::Greater => Ordering::Greater,
        }
    }

    fn add(self, other: PathRow) -> PathRow {
        PathRow {
            calls: self.calls + other.calls,
            incl: self.incl + other.incl,
            excl: self.excl + other.excl,
            ..self
        }
    }
}

// The time in which any call was open.
fn time_in_calls(rows: &[PathRow]) -> u128
    requires { sum_by (λ r. r.excl) rows.now < 2 ^ 128 }
    ensures { result ≡ sum_by (λ r. r.excl) rows.now }
{
    rows.iter().map(|row| row.excl).sum()
}

// Puts all rows one deeper, under the row of a call. On `Memory` the rows are as before.
fn put_under(rows: &mut Seq<PathRow>, call: PathRow) -> Result<(), Memory>
    requires { All (λ r. r.depth + 1 < 2 ^ 16) rows.old }
    ensures ok { OnOk result (rows.new ≡ call ∷ map one_deeper rows.old) }
    ensures err { OnErr result (rows.new ≡ rows.old) }
{
    let mut left = rows.len();
    rows.push(call)?;
    while left > 0 {
        left -= 1;
        let row = rows.as_slice()[left];
        let deeper = PathRow {
            depth: row.depth + 1,
            ..row
        };
        rows.set(left + 1, deeper);
    }
    rows.set(0, call);
    Ok(())
}

// Whether a call over the content has a row.
fn has_row(begun: bool, content: &PathProfile) -> bool
    ensures { result ≡ call_stands begun content.now }
{
    begun || content.bare > 0 || content.rows.len() != 0
}

impl Sums for PathProfile {
    ghost is_ordered = { λ p. IsDepthFirst p.rows };

    ghost fits = { PathProfileFits };

    ghost count = { path_row_count };

    ghost sum = { sum_of_paths };

    ghost closing = { closed_paths };

    fn add(&mut self, other: &PathProfile) -> Result<(), Memory> {
        add_rows(&mut self.rows, other.rows.as_slice())?;
        self.bare += other.bare;
        Ok(())
    }

    fn close_over(&mut self, func: u32, begun: bool) -> Result<(), Memory> {
        if !has_row(begun, self) {
            return Ok(());
        }
        let call = PathRow {
            depth: 1,
            func,
            calls: u64::from(begun),
            incl: self.bare + time_in_calls(self.rows.as_slice()),
            excl: self.bare,
        };
        put_under(&mut self.rows, call)?;
        self.bare = 0;
        Ok(())
    }

    fn copy(&self, alloc: Global) -> Result<PathProfile, Memory> {
        Ok(PathProfile {
            bare: self.bare,
            rows: Seq::from_slice(alloc, self.rows.as_slice())?,
        })
    }
}
