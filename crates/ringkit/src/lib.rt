#![tactic(auto)]
//! The public calls: byte slices, numbers and records in, a `Result` by value out. No call has a `requires`. Those of matrices and of reports
//! are in `matrix_calls` and `report_calls`. `ringkit_c` gives them all to C.
mod all_cross; // the call that asks whether all rows cross
mod judging; // the call that judges values
mod least_peak; // the call that says the least of five rules
mod texts; // the calls that read a text
mod turning; // the call that turns rows
mod working; // the calls of the working table

ghost use Rattle.std.specs.Prelude.{◌+◌, ◌≡◌, ◌≤◌, length, Result, Ok};
ghost use Rattle.ring.specs.Limits.{desk};
ghost use Rattle.ring.specs.Sheet.{sheet_in, sents, demands};
ghost use Rattle.table.specs.Table.{write_table, table_room};
ghost use Rattle.sheet.specs.WriteSheet.{write_sheet};
ghost use Rattle.sheet.specs.Range.{longest};
ghost use Rattle.ringkit.specs.Outcome.{ask_room, Fills};

pub use all_cross::ringkit_crossing;
pub use judging::ringkit_judge;
pub use least_peak::{LeastTable, ringkit_least};
use reasons::{Reason, Refusal};
use ring::{BYTES, Figures, LINKS, Link, ROWS, Ring};
use rows::Rows;
pub use texts::{
    ringkit_check, ringkit_parallel, ringkit_rewrite_sheet, ringkit_rewrite_table, ringkit_route,
    ringkit_route_best, ringkit_route_lowered, ringkit_route_lowered_best,
};
pub use turning::{TurnedTable, ringkit_turn};
pub use working::{
    ringkit_work_add, ringkit_work_change, ringkit_work_remove, ringkit_work_row,
    ringkit_work_start, ringkit_work_write,
};

/// A program that reads a text from outside takes at most so many bytes of it: one more than a text can have, so that a longer one is seen to be longer.
pub const fn bytes_taken() -> u64
    ensures { result ≡ desk.bytes + 1 }
{
    BYTES as u64 + 1
}

/// A buffer of so many bytes has room for every sheet that routing writes: at most 46 bytes of the R, C and Z lines, 27 of a D line and 23 of an L line. A node has at
/// most 2 digits, an amount 4, a front or back 5, a load 8, and behind each field stands one byte.
pub const fn sheet_bytes() -> usize
    ensures { result ≡ longest desk }
{
    46 + 27 * ROWS + 23 * LINKS
}

/// A buffer of so many bytes has room for every table that is made of a matrix, or that a working table which calls made is written as: at most
/// 9 bytes of the R line and 13 of a D line.
pub const fn table_bytes() -> usize
    ensures { result ≡ table_room desk }
{
    9 + 13 * ROWS
}

/// Whether the buffer has room for so many bytes.
#[tactic(auto, unfolding(crate::specs::Outcome::ask_room))]
pub fn ask_room(buffer: &[u8], size: usize) -> Result<(), Refusal>
    ensures { result ≡ ask_room (length buffer.now) size }
{
    if buffer.len() < size {
        return Err(Refusal::whole(Reason::NoRoom));
    }
    Ok(())
}

/// Writes the table of a ring and of the demands of rows, at most 1,024, at the start of the buffer; or 15.
pub fn put_table<R: Rows>(buffer: &mut [u8], ring: Ring, rows: &R) -> Result<usize, Refusal>
    requires { length (R.rows rows.now) ≤ desk.rows }
    ensures { let demands = demands (sents (R.rows rows.now)) in
        Fills (Ok (write_table ring demands)) buffer.old buffer.new result }
{
    ask_room(buffer, table::table_length(ring, rows))?;
    Ok(table::write_table(buffer, ring, rows))
}

// Writes a sheet.
fn put_sheet<R: Rows>(
    buffer: &mut [u8],
    figures: Figures,
    rows: &R,
    links: &[Link],
) -> Result<usize, Refusal>
    requires few_rows { length (R.rows rows.now) ≤ desk.rows }
    requires few_links { length links.now ≤ desk.nodes }
    ensures { let sheet = sheet_in figures (R.rows rows.now) links.now in
        Fills (Ok (write_sheet sheet)) buffer.old buffer.new result }
{
    ask_room(buffer, sheet::sheet_length(figures, rows, links))?;
    Ok(sheet::write_sheet(buffer, figures, rows, links))
}
