#![tactic(auto)]
// The working table: rows at places, with the across number of every cut, the largest and its cut kept beside them. Each change is a function by value that
// answers the table behind it, or a reason and no table; none has a `requires`. A ring size outside 2 to 64 counts as the nearest within, and sums wrap around at
// the type's end: neither happens to a table that was made by calls.
mod answer; // what an accepted change answers
mod change; // a row added, changed or removed
mod held_ring; // the ring as C lends it
mod place; // which places hold rows
mod sort; // the rows by nodes, then by place
mod start; // an empty table

use across::PAIRS;
pub use answer::{Changed, Placed};
pub use change::{added, changed, removed};
pub use held_ring::HeldRing;
pub use place::row_of;
use ring::{Cut, ROWS};
pub use sort::sorted;
pub use start::started;

/// Place p has its row at p-1 of the three columns; a first node of 0 says that it is empty. The triangle has the across number of every two links, and the cut is
/// the largest of them. Amounts and across numbers are in units.
#[repr(C)]
#[derive(Clone, Copy)]
pub struct Work {
    pub triangle: [u32; PAIRS],
    pub ring: HeldRing,
    pub cut: Cut,
    pub amount: [u16; ROWS],
    pub first: [u8; ROWS],
    pub second: [u8; ROWS],
}
