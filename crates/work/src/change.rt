//! A row added, changed or removed.
ghost use Rattle.std.specs.Prelude.{◌≡◌, ◌<◌};
ghost use Rattle.ring.specs.Limits.{desk};
ghost use Rattle.work.specs.Bytes.{with_row, put_in, cleared_in};
ghost use Rattle.work.specs.Changes.{Occupied, Fitting, added_in, verdict_in, changed_in, removed_in, Sized};

use crate::answer::{nodes, recut, ring_size};
use crate::place::{free_place, index_of, row_at};
use crate::{Changed, Work};
use across::{put_row, take_row};
use reasons::{Reason, check_row};
use ring::Demand;

// What the columns hold at a free place.
const NO_DEMAND: Demand = Demand {
    first: 0,
    second: 0,
    amount: 0,
};

// What the columns hold at place k+1 from now on.
fn set(work: &mut Work, k: usize, demand: Demand)
    requires place { k < desk.rows }
    requires first { demand.first < 256 }
    requires second { demand.second < 256 }
    requires amount { demand.amount < 65536 }
    ensures { work.new ≡ with_row work.old work.old.triangle k demand }
{
    work.first[k] = demand.first as u8;
    work.second[k] = demand.second as u8;
    work.amount[k] = demand.amount as u16;
}

// A row is put at place k+1, which is free.
#[tactic(auto, unfolding(crate::specs::Bytes::put_in))]
fn put(work: Work, k: usize, demand: Demand) -> Work
    requires { Fitting k demand }
    ensures { result ≡ put_in work k demand }
{
    let mut work = work;
    let nodes = nodes(&work);
    put_row(&mut work.triangle, nodes, demand);
    set(&mut work, k, demand);
    work
}

// The row at place k+1 is taken off.
#[tactic(auto, unfolding(crate::specs::Bytes::cleared_in))]
fn cleared(work: Work, k: usize) -> Work
    requires { Occupied work k }
    ensures { result ≡ cleared_in work k }
{
    let mut work = work;
    let nodes = nodes(&work);
    let demand = row_at(&work, k);
    take_row(&mut work.triangle, nodes, demand);
    set(&mut work, k, NO_DEMAND);
    work
}

// What is found against a row, which is judged as the first row of a table is.
#[tactic(auto, unfolding(reasons::specs::Faults::row_found, reasons::specs::Faults::verdict_found))]
fn judge_alone(work: &Work, demand: Demand) -> Result<(), Reason>
    ensures { result ≡ verdict_in work.now demand }
{
    check_row(ring_size(work.ring.nodes), 0, None, demand).map_err(|fault| fault.reason)
}

/// A row at the lowest free place; the amount is in units. Refused with the first that holds of 4, 5 and 7 against the row, and 21 where all places are taken.
#[tactic(auto, unfolding(crate::specs::Changes::added_in, crate::specs::Changes::put_free))]
pub fn added(work: Work, demand: Demand) -> Result<Changed, Reason>
    ensures value { result ≡ added_in work demand }
    ensures columns { Sized work }
{
    judge_alone(&work, demand)?;
    let k = free_place(&work.first).ok_or(Reason::Full)?;
    let work = put(work, k, demand);
    Ok(recut(work, k as u32 + 1))
}

/// Another row in place of the one at a place, counted from 1. Refused with 22 where the place holds none, then with the first that holds of 4, 5 and 7.
#[tactic(auto, unfolding(crate::specs::Changes::changed_in))]
pub fn changed(work: Work, place: u32, demand: Demand) -> Result<Changed, Reason>
    ensures value { result ≡ changed_in work place demand }
    ensures columns { Sized work }
{
    let k = index_of(&work, place)?;
    judge_alone(&work, demand)?;
    let off = cleared(work, k);
    let work = put(off, k, demand);
    Ok(recut(work, place))
}

/// The row at a place, counted from 1, leaves it. Refused with 22 where the place holds none.
#[tactic(auto, unfolding(crate::specs::Changes::removed_in))]
pub fn removed(work: Work, place: u32) -> Result<Changed, Reason>
    ensures value { result ≡ removed_in work place }
    ensures columns { Sized work }
{
    let off = cleared(work, index_of(&work, place)?);
    Ok(recut(off, place))
}
