//! Why a text or a call is refused.
ghost use Rattle.std.specs.Prelude.{◌≡◌, ◌+◌, ◌≤◌};
ghost use Rattle.ring.specs.Limits.{desk};
ghost use Rattle.reasons.specs.Reasons.{number_of};
ghost use Rattle.reasons.specs.Refusals.{refusal};

/// The reasons, in the order in which they are tried (but that of a matrix `TooMany` is tried behind `NotSymmetric`), each with its number. Tables use the
/// first ten but NoRow, the best choice `TooManySplit`, a report `PlansTooLong`, and, where a buffer is lent, the last; the working table has NoRow and Full.
#[derive(Clone, Copy, Debug, PartialEq, Eq)]
pub enum Reason {
    TooLong = 1,
    Misshapen = 2,
    RingSize = 3,
    Fibres = 20,
    NoRow = 22,
    NoSuchNode = 4,
    NotBelow = 5,
    OutOfOrder = 6,
    TooMany = 16,
    TooMuch = 7,
    Full = 21,
    WrongSum = 8,
    WrongWay = 9,
    WrongCut = 10,
    WrongLink = 11,
    WrongLast = 12,
    NotTight = 13,
    OverBound = 14,
    NotZero = 17,
    NotSymmetric = 18,
    SumTooMuch = 19,
    TooManySplit = 23,
    PlansTooLong = 24,
    NoRoom = 15,
}

/// A reason, with the line and the byte of the text that it names, both counted from 1; 0 where the text as a whole, or the call, is refused.
#[derive(Clone, Copy, Debug, PartialEq, Eq)]
pub struct Refusal {
    pub reason: Reason,
    pub line: u32,
    pub byte: u32,
}

impl Reason {
    /// Its number, from 1 to 24, by which C and the printed refusals name it.
    pub fn number(self) -> u32
        ensures { result ≡ number_of self }
    {
        self as u32
    }
}

impl Refusal {
    /// The text as a whole, or the call, is refused.
    pub const fn whole(reason: Reason) -> Self
        ensures { result ≡ refusal reason 0 0 }
    {
        Refusal {
            reason,
            line: 0,
            byte: 0,
        }
    }

    /// The line with this number is misshapen at this place, which is counted from 0; a line that is missing or left over is so at place 0.
    pub fn misshapen(line: u32, place: usize) -> Self
        requires { place ≤ desk.bytes }
        ensures { result ≡ refusal Reason.Misshapen line (place + 1) }
    {
        Refusal {
            reason: Reason::Misshapen,
            line,
            byte: place as u32 + 1,
        }
    }
}
