#![tactic(auto)]
//! The public calls that read and write a matrix, over those of `ringkit`. No call has a `requires`.
ghost use Rattle.std.specs.Prelude.{ℕ, ◌≡◌, ◌≤◌, length, take, Result, Ok, IsOk, IfOk};
ghost use Rattle.ring.specs.Limits.{desk};
ghost use Rattle.ring.specs.LineSize.{IsFibres};
ghost use Rattle.ring.specs.Sheet.{sents, demands};
ghost use Rattle.table.specs.Table.{InRange, table_room};
ghost use Rattle.table.specs.Says.{Accepted as AcceptedTable};
ghost use Rattle.matrix.specs.Matrix.{write_matrix};
ghost use Rattle.matrix.specs.Demands.{matrix_of_rows, Passes};
ghost use Rattle.matrix.specs.Room.{matrix_room};
ghost use Rattle.matrix.specs.Says.{Accepted as AcceptedMatrix};
ghost use Rattle.ringkit.specs.Outcome.{ask_room, Fills};
ghost use Rattle.ringkit.specs.Says.{Only};
ghost use Rattle.matrix_calls.specs.Matrices.{SumsFit, ReadMatrixPromise, WriteMatrixPromise};
ghost use Rattle.matrix_calls.specs.MatrixCalls.{matrix_read, matrix_written};

use family::Family;
use reasons::Refusal;
use ring::{LINKS, Ring};
use ringkit::{ask_room, put_table};
use rows::{Columns, Rows};

/// A buffer of so many bytes has room for every matrix that is made of a table: each entry has at most 4 digits, and the byte behind them.
pub const fn matrix_bytes() -> usize
    ensures { result ≡ matrix_room desk }
{
    5 * LINKS * LINKS
}

// Asks for room for the matrix of a table's rows. In a buffer that has room for every matrix it is not measured.
fn ask_matrix_room<R: Rows>(buffer: &[u8], ring: Ring, rows: &R) -> Result<(), Refusal>
    requires range { InRange desk ring (demands (sents (R.rows rows.now))) }
    requires fit { (k : ℕ) → Passes desk (demands (sents (R.rows rows.now))) k → ⊥ }
    ensures { let demands = demands (sents (R.rows rows.now)) in result ≡
        ask_room (length buffer.now) (length (write_matrix (matrix_of_rows ring.nodes demands))) }
{
    if matrix_bytes() <= buffer.len() {
        Ok(())
    } else {
        ask_room(buffer, matrix::matrix_length(ring, rows))
    }
}

// Writes the matrix of a table's rows.
fn put_matrix<R: Rows>(buffer: &mut [u8], ring: Ring, rows: &R) -> Result<usize, Refusal>
    requires range { InRange desk ring (demands (sents (R.rows rows.now))) }
    requires fit { (k : ℕ) → Passes desk (demands (sents (R.rows rows.now))) k → ⊥ }
    ensures { let demands = demands (sents (R.rows rows.now)) in
        Fills (Ok (write_matrix (matrix_of_rows ring.nodes demands))) buffer.old buffer.new result }
{
    ask_matrix_room(buffer, ring, rows)?;
    Ok(matrix::write_matrix(buffer, ring, rows))
}

fn read_matrix(
    matrix: &[u8],
    fibres: u32,
    family: Family,
    buffer: &mut [u8],
) -> Result<usize, Refusal>
    ensures { Fills (matrix_read fibres family matrix.now) buffer.old buffer.new result }
{
    reasons::check_fibres(fibres).map_err(Refusal::whole)?;
    let mut rows = Columns::new();
    let nodes = matrix::read_matrix(matrix, &mut rows)?;
    put_table(
        buffer,
        Ring {
            nodes,
            fibres,
            family,
        },
        &rows,
    )
}

/// Reads a matrix and writes its table, on a ring of so many fibres, 2 or 4, and of a family, which a matrix does not say. Answers the table's length, at most
/// `ringkit::table_bytes()`. Else the buffer stays as it was, and the refusal is 20 of the fibres, which is tried before the text is read, with line 0; or the matrix's first reason,
/// with its line and byte; or 15.
pub fn ringkit_read_matrix(
    matrix: &[u8],
    fibres: u32,
    family: Family,
    buffer: &mut [u8],
) -> Result<usize, Refusal>
    ensures promise { ReadMatrixPromise fibres family matrix.now buffer.old buffer.new result }
    ensures only { Only (ReadMatrixPromise fibres family matrix.now buffer.old) buffer.new result }
    ensures accepted { IfOk result (λ length. AcceptedTable desk (take length buffer.new)) }
    ensures fits { IfOk result (λ length. length ≤ table_room desk) }
    ensures room { IsFibres fibres → AcceptedMatrix desk matrix.now →
        table_room desk ≤ length buffer.old →
        IsOk result }
    ensures value { Fills (matrix_read fibres family matrix.now) buffer.old buffer.new result }
{
    read_matrix(matrix, fibres, family, buffer)
}

fn write_matrix(table: &[u8], buffer: &mut [u8]) -> Result<usize, Refusal>
    ensures { Fills (matrix_written table.now) buffer.old buffer.new result }
{
    let mut rows = Columns::new();
    let ring = table::read_table(table, &mut rows)?;
    matrix::judge_sums(&rows)?;
    put_matrix(buffer, ring, &rows)
}

/// Reads a table and writes its matrix, in which rows of the same two nodes add up. Answers the matrix's length, at most `matrix_bytes()`. Else the buffer
/// stays as it was, and the refusal is the table's first reason, with its line and byte; or 19, with the line of the first row at which a pair's sum passes
/// 9,999 units; or 15.
pub fn ringkit_write_matrix(table: &[u8], buffer: &mut [u8]) -> Result<usize, Refusal>
    ensures promise { WriteMatrixPromise table.now buffer.old buffer.new result }
    ensures only { Only (WriteMatrixPromise table.now buffer.old) buffer.new result }
    ensures accepted { IfOk result (λ length. AcceptedMatrix desk (take length buffer.new)) }
    ensures fits { IfOk result (λ length. length ≤ matrix_room desk) }
    ensures room { SumsFit table.now → matrix_room desk ≤ length buffer.old → IsOk result }
    ensures value { Fills (matrix_written table.now) buffer.old buffer.new result }
{
    write_matrix(table, buffer)
}
