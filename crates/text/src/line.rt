//! A line of any shape: one reader and one writer, both driven by the shape.
ghost use Rattle.std.specs.Prelude.{◌≡◌, ◌+◌, ◌≤◌, length};
ghost use Rattle.ring.specs.Limits.{desk};
ghost use Rattle.text.specs.WriteLine.{end_of, write_line};
ghost use Rattle.text.specs.ReadLine.{read_line};
ghost use Rattle.text.specs.FieldByte.{field_byte};
ghost use Rattle.text.specs.Written.{Passed, most_fields};

use crate::field::{Field, read_field, write_field};
use crate::pass::{Measure, Pass};

/// The byte behind a field that `left` fields follow.
#[tactic(auto, unfolding(crate::specs::WriteLine::end_of))]
pub fn end_of(left: usize) -> u8
    ensures { result ≡ end_of left }
{
    if left == 0 { b'\n' } else { b'\t' }
}

/// Reads a line by its shape: a value for each field, of a letter 0; or the place of the first faulty byte, counted from 0.
#[tactic(auto, unfolding(crate::specs::ReadLine::read_line, crate::specs::ReadLine::fields_from, crate::specs::ReadLine::field_then))]
pub fn read_line<const N: usize>(text: &[u8], shape: &[Field; N]) -> Result<[u32; N], usize>
    ensures { result ≡ read_line desk.digits shape.now text.now }
{
    let mut values = [0; N];
    let mut at = 0;
    for t in 0..N {
        let (value, next) = read_field(text, at, shape[t], end_of(N - t - 1))?;
        values[t] = value;
        at = next;
    }
    if at == text.len() {
        Ok(values)
    } else {
        Err(at)
    }
}

/// Writes the line of a shape and its values from a place on, or only measures it, and answers the place behind the line.
pub fn write_line<P: Pass>(buffer: &mut [u8], at: usize, shape: &[Field], values: &[u32]) -> usize
    requires valued { length shape.now ≤ length values.now }
    requires room { at + length (write_line shape.now values.now) ≤ P.room buffer.old }
    ensures { Passed P.after buffer.old at (write_line shape.now values.now) buffer.new result }
{
    let mut next = at;
    for t in 0..shape.len() {
        next = write_field::<P>(
            buffer,
            next,
            shape[t],
            values[t],
            end_of(shape.len() - t - 1),
        );
    }
    next
}

/// How many bytes the line of a shape and its values has.
pub fn line_length(shape: &[Field], values: &[u32]) -> usize
    requires short { length shape.now ≤ most_fields }
    requires valued { length shape.now ≤ length values.now }
    ensures { result ≡ length (write_line shape.now values.now) }
{
    write_line::<Measure>(&mut [], 0, shape, values)
}

/// The byte where the field behind k others starts, counted from 1. It is asked only of a line that is refused.
#[tactic(auto, unfolding(crate::specs::FieldByte::field_byte))]
#[cold]
pub fn field_byte(shape: &[Field], values: &[u32], k: usize) -> u32
    requires short { length shape.now ≤ most_fields }
    requires valued { length shape.now ≤ length values.now }
    requires there { k ≤ length shape.now }
    ensures { result ≡ field_byte shape.now values.now k }
{
    line_length(&shape[..k], values) as u32 + 1
}
