#![tactic(auto)]
//! A report over a text of many plans: its pieces, what each gives, the totals of each family, and their lines.
mod laws; // what holds of all texts
mod outcome; // what one piece gives
mod piece; // a text, piece by piece
mod plans; // the plans of a text, checked
mod totals; // what is counted and added
mod write; // the lines of a report

pub use laws::{
    damage_to_a_piece, families_apart, pieces_of_a_text, report_of_a_text, worst_ratio,
};
pub use outcome::Outcome;
pub use piece::Pieces;
pub use plans::{MOST_BYTES, report};
pub use totals::{Ratio, Report, Totals};
pub use write::{report_length, write_report};
