//! Which places hold rows.
ghost use Rattle.std.specs.Prelude.{◌≡◌, ◌<◌, IfOk, IfSome};
ghost use Rattle.ring.specs.Limits.{desk};
ghost use Rattle.work.specs.Bytes.{demand_at};
ghost use Rattle.work.specs.Changes.{free_in, index_in, Occupied, row_in};
ghost use Rattle.work.specs.Promises.{RowPromise};

use crate::Work;
use reasons::Reason;
use ring::{Demand, ROWS};

/// How many places stand before the lowest that is free.
pub(crate) fn free_place(first: &[u8; ROWS]) -> Option<usize>
    ensures value { result ≡ free_in first.now }
    ensures place { IfSome result (λ k. k < desk.rows) }
{
    first.iter().position(|&node| node == 0)
}

/// Where the row of a place, counted from 1, stands in the columns; refused with 22 where the place holds no row.
#[tactic(auto, unfolding(crate::specs::Changes::index_in, crate::specs::Changes::holds_in))]
pub(crate) fn index_of(work: &Work, place: u32) -> Result<usize, Reason>
    ensures value { result ≡ index_in work.now.first place }
    ensures held { IfOk result (λ k. Occupied work.now k) }
{
    let k = place.checked_sub(1).ok_or(Reason::NoRow)? as usize;
    match work.first.get(k) {
        None | Some(0) => Err(Reason::NoRow),
        Some(_) => Ok(k),
    }
}

/// What stands in the columns at place k+1.
pub(crate) fn row_at(work: &Work, k: usize) -> Demand
    requires { k < desk.rows }
    ensures { result ≡ demand_at work.now k }
{
    Demand {
        first: u32::from(work.first[k]),
        second: u32::from(work.second[k]),
        amount: u32::from(work.amount[k]),
    }
}

/// The row at a place, counted from 1, its amount in units; refused with 22 where the place holds none.
pub fn row_of(work: &Work, place: u32) -> Result<Demand, Reason>
    ensures promise { RowPromise work.now place result }
    ensures value { result ≡ row_in work.now place }
{
    let k = index_of(work, place)?;
    Ok(row_at(work, k))
}
