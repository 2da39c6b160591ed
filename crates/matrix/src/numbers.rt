//! The numbers of a line.
ghost use Rattle.std.specs.Prelude.{◌≡◌, ◌≤◌, length};
ghost use Rattle.ring.specs.Limits.{desk};
ghost use Rattle.matrix.specs.Matrix.{entry_byte};
ghost use Rattle.matrix.specs.Read.{first_over};

use arrayvec::ArrayVec;
use ring::{AMOUNT, LINKS};
use text::{Field, field_byte};

/// The numbers of a line, from the first on, as many as the largest ring has nodes.
pub(crate) type Numbers = ArrayVec<u32, LINKS>;

/// How many numbers stand before the first that is over the limit of an amount, where one is.
pub(crate) fn first_over(numbers: &[u32]) -> Option<usize>
    ensures { result ≡ first_over desk numbers.now }
{
    numbers.iter().position(|number| AMOUNT < *number)
}

/// The byte where the number behind k others starts in the line, counted from 1. It is asked only of a line that is refused.
pub(crate) fn byte_of(numbers: &Numbers, k: usize) -> u32
    requires { k ≤ length numbers.now.items }
    ensures { result ≡ entry_byte numbers.now.items k }
{
    field_byte(&[Field::Number; LINKS][..numbers.len()], numbers, k)
}
