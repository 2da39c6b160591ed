#![tactic(auto)]
//! The engines that split a table's rows: which rooms links have before rows are sent. Definitions in specs/, theorems in proofs/; the only code is the name
//! of an engine, and what holds of both stands on functions that do nothing.
mod laws; // what holds of them

pub use laws::{either_engine, lowered_loads, lowered_rooms};

/// How rows are split. Either way rows are sent in their order over their fronts as far as rooms allow, and then parallel pairs are moved; rooms differ.
#[derive(Clone, Copy)]
pub enum Engine {
    /// Each link starts with the largest across number, M.
    Level,
    /// Rooms are lowered first, link by link, as far as the across numbers let them be: no split routing is at most as large on every link and smaller on one.
    Lowered,
}
