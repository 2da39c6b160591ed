// The cut: two links of the ring, and the across number of the rows.
ghost use Rattle.std.specs.Prelude.{◌≡◌, ◌↔◌, ◌^◌, ◌<◌, IsTrue, sum_by};
ghost use Rattle.ring.specs.Cut.{IsCut, part};
ghost use Rattle.weight.specs.Rows.{Fit};
ghost use Rattle.reasons.specs.Findings.{First};
ghost use Rattle.judge.specs.Findings.{cut_findings};

use reasons::{Finding, Reason};
use ring::{Cut, Demand};
use rows::{Rows, each};

// Whether two links are a cut of a ring of so many nodes.
fn is_cut(nodes: u32, cut: Cut) -> bool
    ensures { IsTrue result ↔ IsCut nodes cut }
{
    1 <= cut.g && cut.g < cut.h && cut.h <= nodes
}

// What a row adds to the across number of g and h.
#[tactic(auto, unfolding(ring::specs::Cut::part, ring::specs::Cut::if_one))]
fn part(demand: Demand, g: u32, h: u32) -> u32
    ensures { result ≡ part demand g h }
{
    if demand.in_front(g) == demand.in_front(h) {
        0
    } else {
        demand.amount
    }
}

// The across number of g and h.
fn across<R: Rows>(rows: &R, g: u32, h: u32) -> u32
    requires { sum_by (λ r. part r.sent.demand g h) (R.rows rows.now) < 2 ^ 32 }
    ensures { result ≡ sum_by (λ r. part r.sent.demand g h) (R.rows rows.now) }
{
    each(rows).map(|row| part(row.sent.demand, g, h)).sum()
}

/// 10: no cut, or an across number that is not that of the rows.
#[tactic(auto, using(crate::proofs::Across::across_sum, crate::proofs::Across::across_fits))]
pub(crate) fn judge_cut<R: Rows>(nodes: u32, rows: &R, cut: Cut) -> Result<(), Finding>
    requires { Fit nodes (R.rows rows.now) }
    ensures { First (cut_findings nodes (R.rows rows.now) cut) result }
{
    if !is_cut(nodes, cut) || across(rows, cut.g, cut.h) != cut.across {
        return Err(Finding::at(Reason::WrongCut, 0));
    }
    Ok(())
}
