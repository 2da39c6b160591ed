// The call that judges a sheet by its values.
ghost use Rattle.std.specs.Prelude.{◌≡◌, ◌≤◌, ◌+◌, IfErr};
ghost use Rattle.ring.specs.Limits.{desk};
ghost use Rattle.reasons.specs.Findings.{First};
ghost use Rattle.judge.specs.Findings.{findings};
ghost use Rattle.ringkit.specs.Judging.{sheet_given, Judged, JudgePromise};

use judge::judge;
use reasons::Finding;
use ring::{Figures, Link};
use rows::SheetRow;

/// Judges a sheet by its values, which may be any numbers, and there may be any number of rows and links: accepted, or the first reason that holds, with its
/// place, counted from 1: that of the row for 4 to 9 and 16, and that of the link for 11; 0 for all else, and for 11 where there are not as many links as the
/// ring has. Amounts, the cut's `across`, a link's `unsplit` and the figure `unsplit_peak` are in units; a row's `front` and `back` and a link's `split` are in halves.
pub fn ringkit_judge(figures: Figures, rows: &[SheetRow], links: &[Link]) -> Result<(), Finding>
    ensures promise { JudgePromise (sheet_given figures rows.now links.now) result }
    ensures only { (other : Judged) → JudgePromise (sheet_given figures rows.now links.now) other →
        other ≡ result }
    // The place is at most that of the first row behind all that a sheet can have.
    ensures place { IfErr result (λ f. f.place ≤ desk.rows + 1) }
    ensures value { First (findings desk (sheet_given figures rows.now links.now)) result }
{
    judge(figures, &rows, links)
}
