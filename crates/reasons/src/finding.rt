//! What is found against values that are held as records: they have places, and no lines or bytes.
ghost use Rattle.std.specs.Prelude.{◌≡◌};
ghost use Rattle.reasons.specs.Findings.{found};

use crate::reason::Reason;

/// A reason, and the place of the row or of the link that it judges, counted from 1; 0 where it judges no row and no link.
#[derive(Clone, Copy, Debug, PartialEq, Eq)]
pub struct Finding {
    pub reason: Reason,
    pub place: usize,
}

impl Finding {
    /// This reason at this place.
    pub fn at(reason: Reason, place: usize) -> Self
        ensures { result ≡ found reason place }
    {
        Finding { reason, place }
    }
}
