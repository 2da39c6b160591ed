//! A D line of a sheet.
ghost use Rattle.std.specs.Prelude.{◌+◌, ◌≤◌, length};
ghost use Rattle.text.specs.Written.{Passed};
ghost use Rattle.sheet.specs.WriteSheet.{routed_line};

use ring::Routed;
use text::{Pass, SHEET_ROW, write_line};

/// Writes a row's line from a place on, or only measures it, and answers the place behind the line.
pub(crate) fn write_row<P: Pass>(buffer: &mut [u8], at: usize, row: Routed) -> usize
    requires { at + length (routed_line row) ≤ P.room buffer.old }
    ensures { Passed P.after buffer.old at (routed_line row) buffer.new result }
{
    let sent = row.sent;
    let demand = sent.demand;
    let values = [
        0,
        demand.first,
        demand.second,
        demand.amount,
        sent.front,
        sent.back,
        row.way.number(),
    ];
    write_line::<P>(buffer, at, &SHEET_ROW, &values)
}
