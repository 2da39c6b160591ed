#![tactic(auto)]
//! Why a text, a call or values are refused, and what is found against a ring and a row. No text is known here.
mod reason; // why a text or a call is refused
mod shown; // what the programs print of a refusal
mod finding; // what is found against values that are held
mod fault; // what is found against the values of a line
mod judge; // what is found against a ring and a row

pub use fault::Fault;
pub use finding::Finding;
pub use judge::{check_fibres, check_next, check_ring, check_row, check_size};
pub use reason::{Reason, Refusal};
