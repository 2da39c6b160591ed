// The call that says the least of five rules.
ghost use Rattle.std.specs.Prelude.{◌≡◌, ◌-◌, take, IsOk, IfOk};
ghost use Rattle.ring.specs.Limits.{desk};
ghost use Rattle.table.specs.Says.{Accepted};
ghost use Rattle.ringkit.specs.Says.{Only};
ghost use Rattle.ringkit.specs.LeastPeak.{LeastSays, LeastPromise, SentWhole, NoneBelow, NoneLowerBy, WithinRuleD, WithinCrossed};

use crate::turning::put_ways;
use least::Least;
use reasons::Refusal;
use ring::ROWS;
use rows::{Columns, Rows};

/// The least of five rules of a table's rows, and how many rows there are.
#[derive(Clone, Copy)]
pub struct LeastTable {
    pub least: Least,
    pub rows: usize,
}

fn find_least(table: &[u8], ways: &mut [u8; ROWS]) -> Result<LeastTable, Refusal>
    ensures { LeastSays table.now ways.old ways.new result }
{
    let mut rows = Columns::new();
    let ring = table::read_table(table, &mut rows)?;
    let least = least::route_least(ring, &mut rows);
    put_ways(ways, &rows);
    Ok(LeastTable {
        least,
        rows: rows.count(),
    })
}

/// Says the least of five rules of a table: the least unsplit peak, in units, to which one turn at a time, the best choice or rule D comes, the latter two by level
/// rooms and by lowered ones; the floor, which is M/2 rounded up, in units; and which rule it is, the first named of those that come to that peak. The best choice is not
/// among them where more than 16 rows are left split. Each row's way is put at its place among the first bytes, 0 for F and 1 for B; the bytes behind them stay. Else no
/// byte changes, and the refusal is the table's first reason, with its line and byte.
pub fn ringkit_least(table: &[u8], ways: &mut [u8; ROWS]) -> Result<LeastTable, Refusal>
    ensures promise { LeastPromise table.now ways.old ways.new result }
    ensures only { Only (LeastPromise table.now ways.old) ways.new result }
    ensures accepted { Accepted desk table.now → IsOk result }
    ensures sent { IfOk result (λ x. SentWhole table.now (take x.rows ways.new) x.least.peak) }
    // no whole circuits of any kind come below the floor,
    ensures floor { IfOk result (λ x. NoneBelow table.now x.least.floor) }
    // so a peak at the floor is the best there is,
    ensures proved_best { IfOk result (λ x.
        x.least.peak ≡ x.least.floor → NoneBelow table.now x.least.peak) }
    // and nothing is below any other by more than the difference
    ensures within { IfOk result (λ x.
        NoneLowerBy table.now x.least.peak (x.least.peak - x.least.floor)) }
    ensures bound { IfOk result (λ x. WithinRuleD table.now x.least.peak) }
    ensures crossed { IfOk result (λ x. WithinCrossed table.now x.least.peak) }
{
    find_least(table, ways)
}
