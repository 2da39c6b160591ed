//! What a report counts and adds.
ghost use Rattle.std.specs.Prelude.{◌≡◌, ◌+◌, ◌*◌, ◌<◌, ◌^◌};
ghost use Rattle.report.specs.Totals.{peak_of, is_worse};
ghost use Rattle.report.specs.Fold.{no_plan, no_piece, with_plan, with_piece};

use crate::outcome::Outcome;
use family::Family;

/// Twice an unsplit peak, to an across number.
#[derive(Clone, Copy)]
pub struct Ratio {
    pub twice: u32,
    pub across: u32,
}

impl Ratio {
    // Whether it is worse than another, by their cross products; all is worse than nothing.
    #[tactic(auto, unfolding(crate::specs::Totals::is_worse))]
    fn is_worse(self, other: Ratio) -> bool
        ensures { result ≡ is_worse self other }
    {
        let ours = self.twice as u64 * other.across as u64;
        let theirs = other.twice as u64 * self.across as u64;
        other.across == 0 || theirs < ours
    }
}

/// What the plans of one family add up to: how many are accepted, the sum of their unsplit peaks, and the worst ratio, of which both numbers are 0 where no plan enters.
#[derive(Clone, Copy)]
pub struct Totals {
    pub accepted: u32,
    pub peaks: u32,
    pub worst: Ratio,
}

impl Totals {
    // Of no plan.
    fn none() -> Self
        ensures { result ≡ no_plan }
    {
        Totals {
            accepted: 0,
            peaks: 0,
            worst: Ratio {
                twice: 0,
                across: 0,
            },
        }
    }

    // With one more plan: of two ratios that are alike the first stays, and a plan with across number 0 does not enter.
    #[tactic(auto, unfolding(crate::specs::Fold::with_plan, crate::specs::Totals::worst_with))]
    fn with(self, peak: u32, across: u32) -> Self
        requires few { self.accepted + 1 < 2 ^ 32 }
        requires small { (2 * peak < 2 ^ 32) × (self.peaks + peak < 2 ^ 32) }
        ensures { result ≡ with_plan self peak across }
    {
        let ratio = Ratio {
            twice: 2 * peak,
            across,
        };
        let enters = across != 0 && ratio.is_worse(self.worst);
        Totals {
            accepted: self.accepted + 1,
            peaks: self.peaks + peak,
            worst: if enters { ratio } else { self.worst },
        }
    }
}

/// The totals of each family, and how many pieces are refused.
#[derive(Clone, Copy)]
pub struct Report {
    pub sonet: Totals,
    pub sdh: Totals,
    pub refused: u32,
}

impl Report {
    // Of no piece.
    pub(crate) fn none() -> Self
        ensures { result ≡ no_piece }
    {
        Report {
            sonet: Totals::none(),
            sdh: Totals::none(),
            refused: 0,
        }
    }

    // With one more piece: a plan is added to the totals of its own family.
    #[tactic(auto, unfolding(crate::specs::Fold::with_piece, crate::specs::Totals::peak_of))]
    pub(crate) fn with(self, outcome: Outcome) -> Self
        requires few { (self.sonet.accepted + 1 < 2 ^ 32) × (self.sdh.accepted + 1 < 2 ^ 32)
            × (self.refused + 1 < 2 ^ 32) }
        requires small { (2 * peak_of outcome < 2 ^ 32)
            × (self.sonet.peaks + peak_of outcome < 2 ^ 32)
            × (self.sdh.peaks + peak_of outcome < 2 ^ 32) }
        ensures { result ≡ with_piece self outcome }
    {
        match outcome {
            Outcome::Refused => Report {
                refused: self.refused + 1,
                ..self
            },
            Outcome::Accepted {
                family,
                peak,
                across,
            } => match family {
                Family::Sonet => Report {
                    sonet: self.sonet.with(peak, across),
                    ..self
                },
                Family::Sdh => Report {
                    sdh: self.sdh.with(peak, across),
                    ..self
                },
            },
        }
    }
}
