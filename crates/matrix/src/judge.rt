//! What is found against the entries, in reading order, and then against all rows that they make.
ghost use Rattle.std.specs.Prelude.{◌≡◌, length};
ghost use Rattle.ring.specs.Limits.{desk};
ghost use Rattle.matrix.specs.Read.{check_entry, judge_down, judge_count};

use crate::fill::count_rows;
use crate::square::Square;
use reasons::{Reason, Refusal};
use ring::ROWS;

/// What is found against the entry x at i, j, whose mirror entry is y.
#[tactic(auto, unfolding(crate::specs::Read::check_entry))]
fn check_entry(i: u32, j: u32, x: u32, y: u32) -> Result<(), Reason>
    ensures { result ≡ check_entry i j x y }
{
    if i == j {
        if x == 0 { Ok(()) } else { Err(Reason::NotZero) }
    } else if x == y {
        Ok(())
    } else {
        Err(Reason::NotSymmetric)
    }
}

/// The diagonal is 0, and each entry is its mirror entry; or the refusal at the first that is not.
pub(crate) fn judge_square(square: &Square) -> Result<(), Refusal>
    ensures { let n = length square.now in result ≡ judge_down square.now n 1 n }
{
    let nodes = square.nodes();
    for i in 1..nodes + 1 {
        for j in 1..nodes + 1 {
            check_entry(i, j, square.get(i, j), square.get(j, i)).map_err(|reason| Refusal {
                reason,
                line: i,
                byte: square.byte_of(i, j),
            })?;
        }
    }
    Ok(())
}

/// A table has room for the rows that the square makes; or the refusal of them all.
pub(crate) fn judge_count(square: &Square) -> Result<(), Refusal>
    ensures { result ≡ judge_count desk (length square.now) square.now }
{
    if ROWS < count_rows(square) {
        return Err(Refusal::whole(Reason::TooMany));
    }
    Ok(())
}
