//! The sums of the rows of a pair.
ghost use Rattle.std.specs.Prelude.{◌≡◌, ◌≤◌, ◌<◌, cond, length, take};
ghost use Rattle.ring.specs.Limits.{desk};
ghost use Rattle.ring.specs.Sheet.{sents, demands};
ghost use Rattle.matrix.specs.Demands.{joins, sum_of};
ghost use Rattle.matrix.specs.Judged.{judge_sums, Amounts};

use reasons::{Reason, Refusal};
use ring::{AMOUNT, Demand};
use rows::{Rows, each};

/// What the demand of a row adds to the pair i, j, which it may name in either order.
#[tactic(auto, unfolding(crate::specs::Demands::same_pair))]
fn part(demand: Demand, i: u32, j: u32) -> u32
    ensures { result ≡ cond (joins demand i j) demand.amount 0 }
{
    let nodes = (demand.first, demand.second);
    if nodes == (i, j) || nodes == (j, i) {
        demand.amount
    } else {
        0
    }
}

/// The sum of the pair i, j over the first `count` rows.
pub(crate) fn sum_of<R: Rows>(rows: &R, count: usize, i: u32, j: u32) -> u32
    requires { Amounts (demands (sents (R.rows rows.now))) }
    ensures { result ≡ sum_of (take count (demands (sents (R.rows rows.now)))) i j }
{
    each(rows)
        .take(count)
        .map(|row| part(row.sent.demand, i, j))
        .sum()
}

/// Each pair's sum is an amount, at most 9,999 units; or 19, on the line of the first row at which its pair's sum passes that. The first row stands on line 2.
pub fn judge_sums<R: Rows>(rows: &R) -> Result<(), Refusal>
    requires { Amounts (demands (sents (R.rows rows.now))) }
    ensures { result ≡ judge_sums desk (demands (sents (R.rows rows.now))) }
{
    for k in 0..rows.count() {
        let demand = rows.row(k).sent.demand;
        if AMOUNT < sum_of(rows, k + 1, demand.first, demand.second) {
            return Err(Refusal {
                reason: Reason::SumTooMuch,
                line: k as u32 + 2,
                byte: 1,
            });
        }
    }
    Ok(())
}
