// The unsplit peak and the size, the split peak, and the bound of the directions.
ghost use Rattle.std.specs.Prelude.{◌*◌, ◌^◌, ◌<◌};
ghost use Rattle.reasons.specs.Findings.{First};
ghost use Rattle.judge.specs.Findings.{last_findings};

use reasons::{Finding, Reason};
use ring::Figures;
use weight::Weight;

/// 12: unsplit peak or size false; 13: the split peak, in halves, is not the across number; 14: twice the unsplit peak is above the split peak plus 3D, where D
/// is `largest`, in units.
pub(crate) fn judge_last(figures: Figures, weight: &Weight, largest: u32) -> Result<(), Finding>
    requires { 2 * weight.now.unsplit_peak < 2 ^ 32 }
    ensures { First (last_findings figures weight.now.split_peak weight.now.unsplit_peak largest)
        result }
{
    let size = figures.ring.line_size(weight.unsplit_peak);
    if figures.unsplit_peak != weight.unsplit_peak || figures.size != size {
        return Err(Finding::at(Reason::WrongLast, 0));
    }
    if weight.split_peak != figures.cut.across {
        return Err(Finding::at(Reason::NotTight, 0));
    }
    if u64::from(weight.split_peak) + 3 * u64::from(largest) < 2 * u64::from(weight.unsplit_peak) {
        return Err(Finding::at(Reason::OverBound, 0));
    }
    Ok(())
}
