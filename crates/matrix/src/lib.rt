#![tactic(auto)]
//! A matrix of demands: text to a table's rows, and a table's rows to text.
mod numbers; // the numbers of a line
mod square; // the lines, kept until all are read
mod line; // a line of text to its numbers
mod read; // a text to rows
mod judge; // what is found against the entries
mod fill; // the rows of a square
mod sums; // the sums of a pair's rows
mod write; // rows to text

pub use read::read_matrix;
pub use sums::judge_sums;
pub use write::{matrix_length, write_matrix};
