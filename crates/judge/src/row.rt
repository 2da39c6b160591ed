// Row by row: what a table finds against its demand, then its halves and its way.
ghost use Rattle.std.specs.Prelude.{◌↔◌, ◌+◌, ◌^◌, ◌<◌, IsTrue, None};
ghost use Rattle.ring.specs.Limits.{desk};
ghost use Rattle.ring.specs.True.{SumsTo2d, GoesByRuleD};
ghost use Rattle.reasons.specs.Findings.{First};
ghost use Rattle.judge.specs.Findings.{row_findings, rows_findings};

use reasons::{Finding, Reason, check_row};
use ring::{Demand, Routed, Sent, Way};
use rows::Rows;

// Whether front and back are twice the amount. Each is below 2 to the 32, so their sum fits.
fn sums(sent: Sent) -> bool
    ensures { IsTrue result ↔ SumsTo2d sent }
{
    u64::from(sent.front) + u64::from(sent.back) == 2 * u64::from(sent.demand.amount)
}

// Whether a row that is not split goes where rule D sends it.
fn goes_by_rule_d(row: Routed) -> bool
    ensures { IsTrue result ↔ GoesByRuleD row }
{
    let sent = row.sent;
    match row.way {
        Way::Front => 0 < sent.front || sent.back == 0,
        Way::Back => 0 < sent.back,
    }
}

// The row behind so many others, of which the last is `above`; its place is counted from 1.
#[tactic(auto, using(crate::proofs::Rows::row_stop, crate::proofs::Rows::row_rest))]
fn judge_row(nodes: u32, before: usize, above: Option<Demand>, row: Routed) -> Result<(), Finding>
    requires { before + 1 < 2 ^ 64 }
    ensures { First (row_findings desk nodes (before + 1) above row) result }
{
    let place = before + 1;
    check_row(nodes, before, above, row.sent.demand).map_err(|fault| Finding::at(
        fault.reason,
        place,
    ))?;
    if !sums(row.sent) {
        return Err(Finding::at(Reason::WrongSum, place));
    }
    if !goes_by_rule_d(row) {
        return Err(Finding::at(Reason::WrongWay, place));
    }
    Ok(())
}

/// All rows in their order, as far as the first that is at fault.
pub(crate) fn judge_rows<R: Rows>(nodes: u32, rows: &R) -> Result<(), Finding>
    ensures { First (rows_findings desk nodes 1 None (R.rows rows.now)) result }
{
    let mut above: Option<Demand> = None;
    for k in 0..rows.count() {
        let row = rows.row(k);
        judge_row(nodes, k, above, row)?;
        above = Some(row.sent.demand);
    }
    Ok(())
}
