//! The line that the programs print of a refusal.
ghost use Rattle.std.specs.Prelude.{◌≡◌, Some};
ghost use Rattle.reasons.specs.Reasons.{number_of};
ghost use Rattle.reasons.specs.Refusals.{refusal_line};

use crate::reason::Refusal;
use std::fmt;

/// A refusal is shown as the letter `E`, the reason's number, the line and the byte, parted by tabs, with no LF at the end.
impl fmt::Display for Refusal {
    ghost output = { λ e. Some (refusal_line (number_of e.reason) e.line e.byte) };

    fn fmt<W: fmt::Write>(&self, f: &mut fmt::Formatter<W>) -> fmt::Result {
        let reason = self.reason.number();
        let line = self.line;
        let byte = self.byte;
        write!(f, "E\t{reason}\t{line}\t{byte}")
    }
}
