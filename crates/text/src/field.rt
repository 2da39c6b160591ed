//! One field of a line, and the byte behind it.
ghost use Rattle.std.specs.Prelude.{◌≡◌, [], ◌∷◌, ◌++◌, ◌+◌, ◌≤◌, length};
ghost use Rattle.ring.specs.Limits.{desk};
ghost use Rattle.text.specs.Field.{spell};
ghost use Rattle.text.specs.ReadLine.{field_at};
ghost use Rattle.text.specs.Written.{Passed};

use crate::mark::read_mark;
use crate::number::{read_number, write_number};
use crate::pass::Pass;
use ring::Way;

/// What stands in a field: one certain letter, a number, or a way, F or B, whose value is the way's number.
#[derive(Clone, Copy, Debug, PartialEq, Eq)]
pub enum Field {
    Letter(u8),
    Number,
    Way,
}

/// Reads the field at a place, and the byte `end` behind it: its value and the place behind that byte; or the place of the first faulty byte.
#[tactic(auto, unfolding(crate::specs::ReadLine::field_at))]
pub fn read_field(text: &[u8], at: usize, field: Field, end: u8) -> Result<(u32, usize), usize>
    ensures { result ≡ field_at desk.digits field text.now at end }
{
    match field {
        Field::Number => read_number(text, at, end),
        _ => read_mark(text, at, field, end),
    }
}

// Writes a value of the field from a place on, and answers the place behind it.
#[tactic(auto, unfolding(crate::specs::Field::spell))]
fn write_value<P: Pass>(buffer: &mut [u8], at: usize, field: Field, value: u32) -> usize
    requires { at + length (spell field value) ≤ P.room buffer.old }
    ensures { Passed P.after buffer.old at (spell field value) buffer.new result }
{
    match field {
        Field::Letter(letter) => P::put(buffer, at, letter),
        Field::Number => write_number::<P>(buffer, at, value),
        Field::Way => match Way::of(value) {
            Way::Front => P::put(buffer, at, b'F'),
            Way::Back => P::put(buffer, at, b'B'),
        },
    }
}

/// Writes a value of the field from a place on, or only measures it, with the byte `end` behind it,
/// and answers the place behind that byte.
pub fn write_field<P: Pass>(
    buffer: &mut [u8],
    at: usize,
    field: Field,
    value: u32,
    end: u8,
) -> usize
    requires { at + length (spell field value) + 1 ≤ P.room buffer.old }
    ensures { Passed P.after buffer.old at (spell field value ++ end ∷ []) buffer.new result }
{
    let next = write_value::<P>(buffer, at, field, value);
    P::put(buffer, next, end)
}
