//! Rows to a matrix. A line is summed afresh from the rows, so that no square is kept.
ghost use Rattle.std.specs.Prelude.{◌≡◌, ◌+◌, ◌≤◌, length};
ghost use Rattle.ring.specs.Limits.{desk};
ghost use Rattle.ring.specs.Lists.{listed};
ghost use Rattle.ring.specs.Sheet.{sents, demands};
ghost use Rattle.text.specs.Shapes.{numbers_line};
ghost use Rattle.text.specs.Written.{Passed, Written};
ghost use Rattle.matrix.specs.Matrix.{write_matrix};
ghost use Rattle.matrix.specs.Demands.{sum_of, matrix_of_rows};
ghost use Rattle.matrix.specs.Judged.{Amounts};

use crate::sums::sum_of;
use ring::Ring;
use rows::Rows;
use text::{Field, Measure, Pass, Write, end_of, write_field};

/// Writes line i of the matrix of a table's rows from a place on, or only measures it. Each entry
/// goes out as soon as it is summed. Answers the place behind the line.
fn write_sums<P: Pass, R: Rows>(buffer: &mut [u8], at: usize, i: u32, ring: Ring, rows: &R) -> usize
    requires few_nodes { ring.nodes ≤ desk.nodes }
    requires amounts { Amounts (demands (sents (R.rows rows.now))) }
    requires has_room { let rs = demands (sents (R.rows rows.now)) in
        at + length (numbers_line (listed (sum_of rs i) 1 ring.nodes)) ≤ P.room buffer.old }
    ensures { let rs = demands (sents (R.rows rows.now)) in
        Passed P.after buffer.old at
        (numbers_line (listed (sum_of rs i) 1 ring.nodes)) buffer.new result }
{
    let mut next = at;
    for j in 1..ring.nodes + 1 {
        let sum = sum_of(rows, rows.count(), i, j);
        let end = end_of((ring.nodes - j) as usize);
        next = write_field::<P>(buffer, next, Field::Number, sum, end);
    }
    next
}

/// Writes all lines from the buffer's start on, or only measures them.
fn write_lines<P: Pass, R: Rows>(buffer: &mut [u8], ring: Ring, rows: &R) -> usize
    requires few_nodes { ring.nodes ≤ desk.nodes }
    requires amounts { Amounts (demands (sents (R.rows rows.now))) }
    requires has_room { let rs = demands (sents (R.rows rows.now)) in
        length (write_matrix (matrix_of_rows ring.nodes rs)) ≤ P.room buffer.old }
    ensures { let rs = demands (sents (R.rows rows.now)) in
        Passed P.after buffer.old 0
        (write_matrix (matrix_of_rows ring.nodes rs)) buffer.new result }
{
    let mut at: usize = 0;
    for k in 0..ring.nodes {
        at = write_sums::<P, R>(buffer, at, k + 1, ring, rows);
    }
    at
}

/// How many bytes the matrix of a table's rows has.
pub fn matrix_length<R: Rows>(ring: Ring, rows: &R) -> usize
    requires few_nodes { ring.nodes ≤ desk.nodes }
    requires amounts { Amounts (demands (sents (R.rows rows.now))) }
    ensures { let rs = demands (sents (R.rows rows.now)) in
        result ≡ length (write_matrix (matrix_of_rows ring.nodes rs)) }
{
    write_lines::<Measure, R>(&mut [], ring, rows)
}

/// Writes the matrix of a table's rows at the start of a buffer that has room for it, and answers its length in bytes. The bytes behind it stay.
pub fn write_matrix<R: Rows>(buffer: &mut [u8], ring: Ring, rows: &R) -> usize
    requires few_nodes { ring.nodes ≤ desk.nodes }
    requires amounts { Amounts (demands (sents (R.rows rows.now))) }
    requires has_room { let rs = demands (sents (R.rows rows.now)) in
        length (write_matrix (matrix_of_rows ring.nodes rs)) ≤ length buffer.old }
    ensures { let rs = demands (sents (R.rows rows.now)) in
        Written buffer.old 0 (write_matrix (matrix_of_rows ring.nodes rs)) buffer.new result }
{
    write_lines::<Write, R>(buffer, ring, rows)
}
