#![tactic(auto)]
//! A text, line by line, and the refusal of a line.
mod lines; // the lines that are left to be read
mod refused; // the refusal of a line whose values have a fault

pub use lines::{Line, Lines};
pub use refused::refusal_on;
