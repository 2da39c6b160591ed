//! The refusal of a line whose values have a fault.
ghost use Rattle.std.specs.Prelude.{◌≡◌, ◌≤◌, length};
ghost use Rattle.text.specs.FieldByte.{field_byte};
ghost use Rattle.text.specs.Written.{most_fields};
ghost use Rattle.reasons.specs.Refusals.{refusal};

use reasons::{Fault, Refusal};
use text::Field;

/// The refusal of the line with this number, this shape and these values, for what is found against them: its byte is where the field starts that the fault is about.
// Cold, so that lines which are accepted cost no more.
#[cold]
pub fn refusal_on(line: u32, shape: &[Field], values: &[u32], fault: Fault) -> Refusal
    requires short { length shape.now ≤ most_fields }
    requires valued { length shape.now ≤ length values.now }
    requires there { fault.field ≤ length shape.now }
    ensures { result ≡ refusal fault.reason line
        (field_byte shape.now values.now fault.field) }
{
    Refusal {
        reason: fault.reason,
        line,
        byte: text::field_byte(shape, values, fault.field),
    }
}
