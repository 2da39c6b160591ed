//! A line of text to its numbers.
ghost use Rattle.std.specs.Prelude.{◌≡◌, ◌≤◌, ◌+◌};
ghost use Rattle.ring.specs.Limits.{desk};
ghost use Rattle.text.specs.ReadLine.{read_line};
ghost use Rattle.text.specs.Shapes.{numbers};
ghost use Rattle.lines.specs.OnLine.{values_on};
ghost use Rattle.matrix.specs.Read.{fields_in, first_numbers, amounts_in};
ghost use Rattle.matrix.specs.ReadInto.{read_as};

use crate::numbers::{Numbers, byte_of, first_over};
use lines::Line;
use reasons::{Reason, Refusal};
use text::{Field, end_of, read_field};

/// How many tabs a line has: one less than its fields.
pub(crate) fn tabs(line: &Line) -> usize
    ensures is { result + 1 ≡ fields_in line.now }
    ensures few { result ≤ desk.bytes }
{
    line.bytes().iter().filter(|byte| **byte == b'\t').count()
}

/// Reads a line of so many numbers, of which the first are kept, as far as there is room for them; or answers the place of its first faulty byte. They take the place of
/// those that were there; of a line that is refused some may stay.
fn numbers_in(text: &[u8], count: usize, values: &mut Numbers) -> Result<(), usize>
    ensures { read_as result values.new.items
        ≡ first_numbers (read_line desk.digits (numbers count) text.now) }
{
    values.clear();
    let mut at: usize = 0;
    for left in (0..count).rev() {
        let (value, next) = read_field(text, at, Field::Number, end_of(left))?;
        let _full = values.try_push(value);
        at = next;
    }
    if at == text.len() { Ok(()) } else { Err(at) }
}

/// The same of the line with this number; or its refusal.
#[tactic(auto, using(crate::proofs::LineSteps::line_place), unfolding(crate::specs::Read::first_numbers, lines::specs::OnLine::values_on))]
pub(crate) fn numbers_on(
    line: &Line,
    number: u32,
    count: usize,
    values: &mut Numbers,
) -> Result<(), Refusal>
    ensures { read_as result values.new.items
        ≡ values_on number (first_numbers (read_line desk.digits (numbers count) line.now)) }
{
    numbers_in(line.bytes(), count, values).map_err(|place| Refusal::misshapen(number, place))
}

/// The numbers of a line of a matrix of so many nodes, none over the limit; or the refusal of the line.
pub(crate) fn amounts_on(
    line: &Line,
    number: u32,
    count: usize,
    values: &mut Numbers,
) -> Result<(), Refusal>
    requires { count ≤ desk.nodes }
    ensures { read_as result values.new.items
        ≡ amounts_in desk number (read_line desk.digits (numbers count) line.now) }
{
    numbers_on(line, number, count, values)?;
    match first_over(values) {
        Some(k) => Err(Refusal {
            reason: Reason::TooMuch,
            line: number,
            byte: byte_of(values, k),
        }),
        None => Ok(()),
    }
}
