#![tactic(auto)]
//! The checker: a sheet's text, read and then judged.
mod check; // a text, accepted or refused

pub use check::check_sheet;
