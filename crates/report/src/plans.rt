//! A text of many plans to its report: each piece is checked as a sheet by itself.
ghost use Rattle.std.specs.Prelude.{◌≡◌, ◌*◌, ◌≤◌, length};
ghost use Rattle.ring.specs.Limits.{desk};
ghost use Rattle.report.specs.Totals.{peak_of};
ghost use Rattle.report.specs.Report.{most_bytes, report};
ghost use Rattle.report.specs.ByCheck.{checked};

use crate::outcome::Outcome;
use crate::piece::Pieces;
use crate::totals::Report;
use arrayvec::ArrayVec;
use checker::check_sheet;
use ring::{LINKS, Link};
use rows::Columns;

/// A text of many plans has at most so many bytes.
pub const MOST_BYTES: usize = 65536;

// What a piece gives as a sheet by itself; its rows and links are put into what is lent. A row takes a byte and more, so its peak is small.
fn checked(piece: &[u8], rows: &mut Columns, links: &mut ArrayVec<Link, LINKS>) -> Outcome
    ensures gives { result ≡ checked piece.now }
    ensures small { peak_of result ≤ desk.amount * length piece.now }
{
    match check_sheet(piece, rows, links) {
        Ok(figures) => Outcome::Accepted {
            family: figures.ring.family,
            peak: figures.unsplit_peak,
            across: figures.cut.across,
        },
        Err(_) => Outcome::Refused,
    }
}

/// The report over a text of at most 65,536 bytes.
pub fn report(text: &[u8]) -> Report
    requires { length text.now ≤ most_bytes }
    ensures { result ≡ report checked text.now }
{
    let mut rows = Columns::new();
    let mut links: ArrayVec<Link, LINKS> = ArrayVec::new();
    let mut report = Report::none();
    let mut pieces = Pieces::of(text);
    while let Some(piece) = pieces.next_piece() {
        report = report.with(checked(piece, &mut rows, &mut links));
    }
    report
}
