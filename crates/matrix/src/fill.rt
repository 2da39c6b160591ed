//! The rows of a square.
ghost use Rattle.std.specs.Prelude.{◌≡◌, ◌≤◌, [], length, map};
ghost use Rattle.ring.specs.Limits.{desk};
ghost use Rattle.rows.specs.Columns.{unsent};
ghost use Rattle.matrix.specs.Demands.{rows_of_matrix};

use crate::square::Square;
use ring::Demand;
use rows::Columns;

/// How many rows a square makes: one for each pair whose entry is above 0.
pub(crate) fn count_rows(square: &Square) -> usize
    ensures { result ≡ length (rows_of_matrix (length square.now) square.now) }
{
    let nodes = square.nodes();
    let mut count: usize = 0;
    for first in 1..nodes + 1 {
        for second in first + 1..nodes + 1 {
            if 0 < square.get(first, second) {
                count += 1;
            }
        }
    }
    count
}

/// Fills columns that hold no row with a row for each pair whose entry is above 0, in table order, of
/// which nothing is sent yet; these are at most 1,024.
pub(crate) fn fill(square: &Square, rows: &mut Columns)
    requires empty { rows.old ≡ [] }
    requires few { length (rows_of_matrix (length square.now) square.now) ≤ desk.rows }
    ensures { rows.new ≡ map unsent (rows_of_matrix (length square.now) square.now) }
{
    let nodes = square.nodes();
    for first in 1..nodes + 1 {
        for second in first + 1..nodes + 1 {
            let amount = square.get(first, second);
            if 0 < amount {
                rows.push_unsent(Demand {
                    first,
                    second,
                    amount,
                });
            }
        }
    }
}
