// The call that asks whether all rows of a table with amounts cross.
ghost use Rattle.std.specs.Prelude.{ℕ, ◌≡◌};
ghost use Rattle.ring.specs.Limits.{desk};
ghost use Rattle.engines.specs.declared.Engine.{Engine};
ghost use Rattle.table.specs.ReadTable.{table_of};
ghost use Rattle.ringkit.specs.Crossing.{CrossingAnswer, all_cross, CrossingPromise, WithinBound};
ghost use Rattle.ringkit.specs.CrossingCalls.{CrossingAsked};

use crossing::{Crossing, crossing_of};
use reasons::Refusal;
use rows::Columns;

fn ask(table: &[u8]) -> Result<Crossing, Refusal>
    ensures { CrossingAsked (table_of desk table.now) result }
{
    let mut rows = Columns::new();
    let ring = table::read_table(table, &mut rows)?;
    Ok(crossing_of(ring.nodes, &mut rows))
}

/// Whether all rows of a table with amounts above 0 cross. Where they do and are at most 16, the answer has the bound, in halves: by either engine the best choice leaves twice the unsplit peak at most the bound.
/// Else it names the first two of them that are parallel, by their places among all rows, counted from 1; or says that they all cross and are more than 16. Or the refusal is the table's
/// first reason, with its line and byte.
pub fn ringkit_crossing(table: &[u8]) -> Result<Crossing, Refusal>
    ensures promise { CrossingPromise table.now result }
    ensures only { (other : CrossingAnswer) → CrossingPromise table.now other → other ≡ result }
    ensures bound { (engine : Engine) (bound : ℕ) → result ≡ all_cross bound →
        WithinBound engine bound table.now }
    ensures value { CrossingAsked (table_of desk table.now) result }
{
    ask(table)
}
