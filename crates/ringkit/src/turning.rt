// The call that turns a table's rows one at a time.
ghost use Rattle.std.specs.Prelude.{◌≡◌, ◌≤◌, ◌++◌, length, drop};
ghost use Rattle.ring.specs.Limits.{desk};
ghost use Rattle.table.specs.Says.{Accepted};
ghost use Rattle.table.specs.ReadTable.{table_of};
ghost use Rattle.ringkit.specs.Says.{Only};
ghost use Rattle.ringkit.specs.Turning.{ways_of, TurnPromise, TurnedWell};
ghost use Rattle.ringkit.specs.TurnCalls.{TurnsTable};

use reasons::Refusal;
use ring::ROWS;
use rows::{Columns, Rows, each};
use turns::Turned;

/// The figures of a table's turned rows, and how many rows there are.
#[derive(Clone, Copy)]
pub struct TurnedTable {
    pub turned: Turned,
    pub rows: usize,
}

// The ways of rows are put into the first bytes.
pub(crate) fn put_ways<R: Rows>(ways: &mut [u8; ROWS], rows: &R)
    requires { length (R.rows rows.now) ≤ desk.rows }
    ensures { ways.new ≡ ways_of (R.rows rows.now) ++ drop (length (R.rows rows.now)) ways.old }
{
    for (place, row) in each(rows).enumerate() {
        ways[place] = row.way.number() as u8;
    }
}

fn turn(table: &[u8], ways: &mut [u8; ROWS]) -> Result<TurnedTable, Refusal>
    ensures { TurnsTable (table_of desk table.now) ways.old ways.new result }
{
    let mut rows = Columns::new();
    let ring = table::read_table(table, &mut rows)?;
    let turned = turns::turn_rows(ring.nodes, &mut rows);
    put_ways(ways, &rows);
    Ok(TurnedTable {
        turned,
        rows: rows.count(),
    })
}

/// Turns a table's rows one at a time, from the start that ends with the least peak. Each row's way is put at its place among the first bytes, 0 for F and 1
/// for B; the bytes behind them stay. Answers the peak in units, the link that the start avoided, the number of turns and that of rows. Else no byte changes,
/// and the refusal is the table's first reason, with its line and byte.
pub fn ringkit_turn(table: &[u8], ways: &mut [u8; ROWS]) -> Result<TurnedTable, Refusal>
    ensures promise { TurnPromise table.now ways.old ways.new result }
    ensures only { Only (TurnPromise table.now ways.old) ways.new result }
    ensures best { Accepted desk table.now → TurnedWell table.now ways.new result }
    ensures value { TurnsTable (table_of desk table.now) ways.old ways.new result }
{
    turn(table, ways)
}
