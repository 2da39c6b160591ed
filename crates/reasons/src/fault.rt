//! What is found against the values of a line.
use crate::reason::Reason;

/// A reason, and the field of the line that it is about, which is counted from 0; a reason that judges the line as a whole is about its letter, field 0.
#[derive(Clone, Copy, Debug, PartialEq, Eq)]
pub struct Fault {
    pub reason: Reason,
    pub field: usize,
}
