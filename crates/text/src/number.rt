//! Numbers: 1 to 8 digits, with no leading zero but 0 itself.
ghost use Rattle.std.specs.Prelude.{◌≡◌, ◌+◌, ◌≤◌, ◌<◌, length, SomeIff};
ghost use Rattle.ring.specs.Limits.{desk};
ghost use Rattle.text.specs.Number.{base, digits};
ghost use Rattle.text.specs.ReadNumber.{digit_of, number_at};
ghost use Rattle.text.specs.Written.{Passed};

use crate::pass::Pass;

/// A digit is below this.
const BASE: u32 = 10;

/// From here on a number has more than one digit. Its name is apart from BASE, and that of ALONE from 0, for the must-fail edits: each makes one of them wrong alone.
const MORE: u32 = BASE;

/// A number has at most 8 digits: it is below this.
const LIMIT: u32 = 100000000;

/// From here on a number has all its digits, and no further digit may follow.
const FULL: u32 = LIMIT / BASE;

/// This number stands alone: no further digit may follow, so that no number has a leading zero.
const ALONE: u32 = 0;

/// The value of a digit.
#[tactic(auto, unfolding(crate::specs::ReadNumber::digit_of))]
fn digit_of(byte: u8) -> Option<u32>
    ensures { SomeIff result (digit_of byte < base) (digit_of byte) }
{
    match byte {
        b'0'..=b'9' => Some(u32::from(byte - b'0')),
        _ => None,
    }
}

/// Reads the number at a place, and the byte `end` behind it. The value is limited and not the count of digits, so that one number is kept: after 0, and from
/// FULL on, a further digit is the fault.
#[tactic(auto, unfolding(crate::specs::ReadNumber::number_at, crate::specs::ReadNumber::number_from, crate::specs::ReadNumber::digits_from))]
pub(crate) fn read_number(text: &[u8], at: usize, end: u8) -> Result<(u32, usize), usize>
    ensures { result ≡ number_at desk.digits text.now at end }
{
    if at >= text.len() {
        return Err(at);
    }
    let Some(mut value) = digit_of(text[at]) else {
        return Err(at);
    };
    for p in at + 1..text.len() {
        let byte = text[p];
        let Some(digit) = digit_of(byte) else {
            return if byte == end {
                Ok((value, p + 1))
            } else {
                Err(p)
            };
        };
        if value == ALONE || value >= FULL {
            return Err(p);
        }
        value = value * BASE + digit;
    }
    Err(text.len())
}

/// Writes the digits of a number from a place on. One digit is written at once.
pub(crate) fn write_number<P: Pass>(buffer: &mut [u8], at: usize, n: u32) -> usize
    requires { at + length (digits n) ≤ P.room buffer.old }
    ensures { Passed P.after buffer.old at (digits n) buffer.new result }
{
    if n < MORE {
        return P::put(buffer, at, b'0' + n as u8);
    }
    write_digits::<P>(buffer, at, n)
}

// The same, the highest digit first. The last digit goes behind those of n / BASE, so the digits need no turning round.
fn write_digits<P: Pass>(buffer: &mut [u8], at: usize, n: u32) -> usize
    requires { at + length (digits n) ≤ P.room buffer.old }
    ensures { Passed P.after buffer.old at (digits n) buffer.new result }
{
    if n < MORE {
        return P::put(buffer, at, b'0' + n as u8);
    }
    let next = write_digits::<P>(buffer, at, n / BASE);
    P::put(buffer, next, b'0' + (n % BASE) as u8)
}
