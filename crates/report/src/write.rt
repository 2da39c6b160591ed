//! The lines of a report: measured or written, by the same code.
ghost use Rattle.std.specs.Prelude.{◌≡◌, ◌+◌, ◌≤◌, length};
ghost use Rattle.text.specs.Written.{Passed, Written};
ghost use Rattle.report.specs.Report.{totals_line, report_text};

use crate::totals::{Report, Totals};
use text::{Field, Measure, Pass, Write, write_line};

// T accepted sum twice-peak across
const TOTALS: [Field; 5] = [
    Field::Letter(b'T'),
    Field::Number,
    Field::Number,
    Field::Number,
    Field::Number,
];

// X refused
const REFUSED: [Field; 2] = [Field::Letter(b'X'), Field::Number];

// The line of a family's totals, from a place on: the place behind it.
fn write_totals<P: Pass>(buffer: &mut [u8], at: usize, totals: Totals) -> usize
    requires { at + length (totals_line totals) ≤ P.room buffer.old }
    ensures { Passed P.after buffer.old at (totals_line totals) buffer.new result }
{
    let Totals {
        accepted,
        peaks,
        worst,
    } = totals;
    let values = [0, accepted, peaks, worst.twice, worst.across];
    write_line::<P>(buffer, at, &TOTALS, &values)
}

// All lines, from the start of the buffer on: the place behind them.
fn write_lines<P: Pass>(buffer: &mut [u8], report: Report) -> usize
    requires { length (report_text report) ≤ P.room buffer.old }
    ensures { Passed P.after buffer.old 0 (report_text report) buffer.new result }
{
    let sonet = write_totals::<P>(buffer, 0, report.sonet);
    let both = write_totals::<P>(buffer, sonet, report.sdh);
    write_line::<P>(buffer, both, &REFUSED, &[0, report.refused])
}

/// How many bytes a report has.
pub fn report_length(report: Report) -> usize
    ensures { result ≡ length (report_text report) }
{
    write_lines::<Measure>(&mut [], report)
}

/// Writes a report at the start of a buffer that has room for it, and answers its length in bytes; the bytes behind it stay as they were.
pub fn write_report(buffer: &mut [u8], report: Report) -> usize
    requires { length (report_text report) ≤ length buffer.old }
    ensures { Written buffer.old 0 (report_text report) buffer.new result }
{
    write_lines::<Write>(buffer, report)
}
