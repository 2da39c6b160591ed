#![tactic(auto)]
//! The public call that makes a report over many plans, beside those of `ringkit`. It has no `requires`.
ghost use Rattle.std.specs.Prelude.{ℕ, ◌≡◌, ◌≤◌, List, length, Ok, IsOk, IfOk};
ghost use Rattle.ring.specs.Limits.{desk};
ghost use Rattle.ring.specs.Lists.{Each};
ghost use Rattle.checker.specs.Says.{Accepted};
ghost use Rattle.report.specs.Report.{most_bytes, report_text};
ghost use Rattle.report.specs.Checked.{report_room};
ghost use Rattle.ringkit.specs.Says.{CallSays, Only};
ghost use Rattle.ringkit.specs.Outcome.{Fills};
ghost use Rattle.report_calls.specs.Reports.{ReportDue, ReportGiven, ReportPromise, Joined, AllCounted};

use reasons::{Reason, Refusal};
use report::{MOST_BYTES, Report};
use ringkit::ask_room;

/// A buffer of so many bytes has room for every report: for each family the letter and its byte, a count of at most 5 digits, a sum and a twice-peak of at most 9, an
/// across number of at most 8, and the byte behind each; then another letter with its byte, and a count of at most 5 digits with the byte behind it.
pub const fn report_bytes() -> usize
    ensures { result ≡ report_room }
{
    82
}

// Writes the lines of a report.
fn put_report(buffer: &mut [u8], report: Report) -> Result<usize, Refusal>
    ensures { Fills (Ok (report_text report)) buffer.old buffer.new result }
{
    ask_room(buffer, report::report_length(report))?;
    Ok(report::write_report(buffer, report))
}

fn make_report(sheets: &[u8], buffer: &mut [u8]) -> Result<usize, Refusal>
    ensures { let sheets = sheets.now in
        CallSays (ReportDue sheets) (ReportGiven sheets) buffer.old buffer.new result }
{
    if MOST_BYTES < sheets.len() {
        return Err(Refusal::whole(Reason::PlansTooLong));
    }
    put_report(buffer, report::report(sheets))
}

/// Makes a report over a text of many plans, of which each is checked as a sheet by itself, and writes its lines: for SONET and then for SDH how many are accepted, the
/// sum of their unsplit peaks, and the worst ratio of twice the unsplit peak to the across number; and how many are refused. Answers the length of the report, at most
/// `report_bytes()`. Else the buffer stays as it was, and the refusal is 24, where the text is over 65,536 bytes, with line 0; or 15.
pub fn ringkit_report(sheets: &[u8], buffer: &mut [u8]) -> Result<usize, Refusal>
    ensures promise { ReportPromise sheets.now buffer.old buffer.new result }
    ensures only { Only (ReportPromise sheets.now buffer.old) buffer.new result }
    ensures counted { (plans : List (List ℕ)) → Joined plans sheets.now →
        Each (Accepted desk) plans →
        AllCounted sheets.now (length plans) buffer.old buffer.new result }
    ensures fits { IfOk result (λ length. length ≤ report_room) }
    ensures room { length sheets.now ≤ most_bytes → report_room ≤ length buffer.old →
        IsOk result }
{
    make_report(sheets, buffer)
}
