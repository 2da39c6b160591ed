#![tactic(auto)]
//! Rings where everything crosses: whether all rows with amounts do, and the bound that the best choice then keeps to; and the first parallel pair of rows. Definitions in
//! specs/, theorems in proofs/; what holds of every table stands on functions that do nothing.
mod crossing; // whether all rows with amounts cross
mod laws; // what holds where they do
mod pair; // the first parallel split pair

pub use crossing::{Crossing, crossing_of};
pub use laws::everything_crosses;
pub use pair::{Pair, first_pair};
