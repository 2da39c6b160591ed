//! What is found against a ring and against a row.
ghost use Rattle.std.specs.Prelude.{◌≡◌, ◌≤◌, length, IfErr};
ghost use Rattle.ring.specs.Limits.{desk};
ghost use Rattle.ring.specs.Sheet.{sents, demands};
ghost use Rattle.reasons.specs.Judge.{wrong_size, check_size, other_fibres, check_fibres, outside, falls};
ghost use Rattle.reasons.specs.Faults.{ring_found, row_found, last_demand};

use crate::fault::Fault;
use crate::reason::Reason;
use ring::{AMOUNT, Demand, FEWEST, FOUR_FIBRES, NODES, ROWS, Ring, TWO_FIBRES};
use rows::{Columns, Rows};

// Whether a ring cannot have n nodes.
#[tactic(auto, unfolding(crate::specs::Judge::wrong_size))]
fn wrong_size(n: u32) -> bool
    ensures { result ≡ wrong_size desk n }
{
    n < FEWEST || NODES < n
}

/// 3 alone, of the size of a ring: a matrix says no fibres.
#[tactic(auto, unfolding(crate::specs::Judge::check_size))]
pub fn check_size(nodes: u32) -> Result<(), Reason>
    ensures { result ≡ check_size desk nodes }
{
    if wrong_size(nodes) {
        Err(Reason::RingSize)
    } else {
        Ok(())
    }
}

// Whether fibres are neither 2 nor 4.
#[tactic(auto, unfolding(crate::specs::Judge::other_fibres))]
fn other_fibres(fibres: u32) -> bool
    ensures { result ≡ other_fibres fibres }
{
    fibres != TWO_FIBRES && fibres != FOUR_FIBRES
}

/// 20 alone, of the fibres of a ring: they are said beside a matrix.
#[tactic(auto, unfolding(crate::specs::Judge::check_fibres))]
pub fn check_fibres(fibres: u32) -> Result<(), Reason>
    ensures { result ≡ check_fibres fibres }
{
    if other_fibres(fibres) {
        Err(Reason::Fibres)
    } else {
        Ok(())
    }
}

/// What is found against a ring: 3 where its nodes are outside 2 to 64, then 20 where its fibres are neither 2 nor 4.
#[tactic(auto, unfolding(crate::specs::Judge::ring_verdict, crate::specs::Faults::ring_found, crate::specs::Faults::verdict_found))]
pub fn check_ring(ring: Ring) -> Result<(), Fault>
    ensures first { result ≡ ring_found desk ring }
    ensures field { IfErr result (λ fault. fault.field ≤ 2) }
{
    let (reason, field) = if wrong_size(ring.nodes) {
        (Reason::RingSize, 1)
    } else if other_fibres(ring.fibres) {
        (Reason::Fibres, 2)
    } else {
        return Ok(());
    };
    Err(Fault { reason, field })
}

// Whether a ring of n nodes lacks the node i.
#[tactic(auto, unfolding(crate::specs::Judge::outside))]
fn outside(n: u32, i: u32) -> bool
    ensures { result ≡ outside n i }
{
    i < 1 || n < i
}

// Whether a row's nodes are below those of the row above it, where there is one: by first node, then second.
#[tactic(auto, unfolding(crate::specs::Judge::falls))]
fn falls(above: Option<Demand>, row: Demand) -> bool
    ensures { result ≡ falls above row }
{
    match above {
        None => false,
        Some(last) => (row.first, row.second) < (last.first, last.second),
    }
}

/// What is found against a row on a ring of so many nodes, behind `before` rows of which the last is `above`: the first that holds of 4 of its first node, 4 of its
/// second, 5, 6, 16 and 7. The amount is in units.
#[tactic(auto, unfolding(crate::specs::Judge::row_verdict, crate::specs::Fields::node_field, crate::specs::Faults::row_found, crate::specs::Faults::verdict_found))]
pub fn check_row(nodes: u32, before: usize, above: Option<Demand>, row: Demand) -> Result<(), Fault>
    ensures first { result ≡ row_found desk nodes before above row }
    ensures field { IfErr result (λ fault. fault.field ≤ 3) }
{
    let (reason, field) = if outside(nodes, row.first) {
        (Reason::NoSuchNode, 1)
    } else if outside(nodes, row.second) {
        (Reason::NoSuchNode, 2)
    } else if row.second <= row.first {
        (Reason::NotBelow, 0)
    } else if falls(above, row) {
        (Reason::OutOfOrder, 0)
    } else if ROWS <= before {
        (Reason::TooMany, 0)
    } else if AMOUNT < row.amount {
        (Reason::TooMuch, 3)
    } else {
        return Ok(());
    };
    Err(Fault { reason, field })
}

// The last demand, where there is one.
fn last_demand(rows: &Columns) -> Option<Demand>
    ensures { result ≡ last_demand (demands (sents rows.now)) }
{
    let last = rows.count().checked_sub(1)?;
    Some(rows.row(last).sent.demand)
}

/// The same of a row that stands behind all rows of the columns.
pub fn check_next(nodes: u32, rows: &Columns, row: Demand) -> Result<(), Fault>
    ensures first { let demands = demands (sents rows.now) in
        result ≡ row_found desk nodes (length demands) (last_demand demands) row }
    ensures field { IfErr result (λ fault. fault.field ≤ 3) }
{
    check_row(nodes, rows.count(), last_demand(rows), row)
}
