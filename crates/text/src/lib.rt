#![tactic(auto)]
//! One line of a table or a sheet, read and written by its shape: what stands in each of its fields. A line is given with its LF.
mod pass; // measured or written
mod number; // digits
mod mark; // letters and ways
mod field; // a field, with the byte behind it
mod line; // a line of any shape
mod ring_line; // the R line of a ring of either family

pub use field::{Field, read_field, write_field};
pub use line::{end_of, field_byte, line_length, read_line, write_line};
pub use pass::{Measure, Pass, Write};
pub use ring_line::{read_ring, write_ring};

/// R n fibres, of a SONET ring: nodes and fibres stand at the same bytes in the line of either family
pub const RING: [Field; 3] = [Field::Letter(b'R'), Field::Number, Field::Number];

/// D i j amount, in a table
pub const ROW: [Field; 4] = [
    Field::Letter(b'D'),
    Field::Number,
    Field::Number,
    Field::Number,
];

/// D i j amount front back F-or-B, in a sheet
pub const SHEET_ROW: [Field; 7] = [
    Field::Letter(b'D'),
    Field::Number,
    Field::Number,
    Field::Number,
    Field::Number,
    Field::Number,
    Field::Way,
];

/// C g h across
pub const CUT: [Field; 4] = [
    Field::Letter(b'C'),
    Field::Number,
    Field::Number,
    Field::Number,
];

/// L link split-load unsplit-load
pub const LINK: [Field; 4] = [
    Field::Letter(b'L'),
    Field::Number,
    Field::Number,
    Field::Number,
];

/// Z unsplit-peak size
pub const LAST: [Field; 3] = [Field::Letter(b'Z'), Field::Number, Field::Number];
