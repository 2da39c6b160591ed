//! Whether all rows with amounts cross.
ghost use Rattle.std.specs.Prelude.{◌≡◌, ◌≤◌, length};
ghost use Rattle.ring.specs.Limits.{desk};
ghost use Rattle.ring.specs.Sheet.{sents, demands_of};
ghost use Rattle.across.specs.Filled.{DemandsFit};
ghost use Rattle.best.specs.Best.{splits};
ghost use Rattle.crossing.specs.AllCross.{halves};
ghost use Rattle.crossing.specs.Crossing.{CrossingIs};

use crate::pair::{Pair, first_pair};
use across::{PLACES, fill, largest_cut};
use best::MOST_SPLIT;
use ring::{Routed, Sent, is_split};
use rows::{Rows, RowsMut, each};
use weight::largest_split;

/// Whether all rows with amounts cross. Rows of amount 0 are passed over.
#[derive(Clone, Copy)]
pub enum Crossing {
    /// They do, and there are at most 16: twice the unsplit peak of the best choice is at most `bound`, by either engine. In halves: the largest across number and twice the largest amount.
    All { bound: u32 },
    /// Two are parallel. The first pair in rule C's order, by places among all rows, counted from 1.
    Parallel { first: usize, second: usize },
    /// They do, and there are more than 16.
    Many,
}

// Each row is sent half either way: then exactly those with amounts are split. Where all of these cross, this is what either engine comes to.
fn halve<R: RowsMut>(rows: &mut R)
    ensures { sents (R.rows rows.new) ≡ halves (demands_of (R.rows rows.old)) }
{
    for k in 0..rows.count() {
        let row = rows.row(k);
        let demand = row.sent.demand;
        let sent = Sent {
            demand,
            front: demand.amount,
            back: demand.amount,
        };
        rows.put(k, Routed { sent, ..row });
    }
}

// How many rows are split, of at most 1,024.
fn count_split<R: Rows>(rows: &R) -> usize
    requires { length (R.rows rows.now) ≤ desk.rows }
    ensures { result ≡ splits (sents (R.rows rows.now)) }
{
    let mut count: usize = 0;
    for row in each(rows) {
        if is_split(row.sent) {
            count += 1;
        }
    }
    count
}

/// Whether all rows with amounts cross, on a ring of 2 to 64 nodes: of at most 1,024 rows, each on the ring, with an amount of at most 9,999. What the rows' halves were is not
/// looked at; half of each amount stands there afterwards.
pub fn crossing_of<R: RowsMut>(nodes: u32, rows: &mut R) -> Crossing
    requires two { desk.fewest ≤ nodes }
    requires fit { DemandsFit nodes (demands_of (R.rows rows.old)) }
    ensures crossing { CrossingIs nodes (demands_of (R.rows rows.old)) result }
    ensures halves { sents (R.rows rows.new) ≡ halves (demands_of (R.rows rows.old)) }
{
    halve(rows);
    if let Pair::Are(first, second) = first_pair(rows) {
        return Crossing::Parallel { first, second };
    }
    if count_split(rows) > MOST_SPLIT {
        return Crossing::Many;
    }
    let n = nodes as usize;
    let mut triangle: [u32; PLACES] = [0; PLACES];
    fill(&mut triangle, n, rows);
    let most = largest_cut(&triangle, n).across;
    Crossing::All {
        bound: most + 2 * largest_split(rows),
    }
}
