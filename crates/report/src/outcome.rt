//! What one piece gives.
use family::Family;

/// That it is no plan to accept; or its family of line sizes, its unsplit peak and its across number.
#[derive(Clone, Copy)]
pub enum Outcome {
    Refused,
    Accepted {
        family: Family,
        peak: u32,
        across: u32,
    },
}
