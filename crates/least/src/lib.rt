#![tactic(auto)]
//! The least of five rules by which rows go whole: the one with the least peak; and the floor, below which no peak comes.
mod rule; // the five rules

ghost use Rattle.std.specs.Prelude.{◌≡◌, ◌≤◌};
ghost use Rattle.ring.specs.Limits.{desk};
ghost use Rattle.ring.specs.Sheet.{demands_of};
ghost use Rattle.across.specs.Filled.{DemandsFit};
ghost use Rattle.least.specs.Least.{LeastIs, NoPeakBelow};
ghost use Rattle.least.specs.Trying.{GoesOrNone, less_of};

use engines::Engine;
use ring::Ring;
use rows::RowsMut;
pub use rule::LeastRule;

/// The least of five rules: a peak in units, the floor, below which no peak of whole rows comes, and the rule that has the peak.
#[derive(Clone, Copy)]
pub struct Least {
    pub peak: u32,
    pub floor: u32,
    pub rule: LeastRule,
}

// A rule that was tried, and the peak that it comes to.
#[derive(Clone, Copy)]
struct Tried {
    rule: LeastRule,
    peak: u32,
}

// Rows go by a rule; their peak. There is none where the rule is the best choice and more than 16 rows are left split.
fn go_by<R: RowsMut>(rule: LeastRule, ring: Ring, rows: &mut R) -> Option<u32>
    requires two { desk.fewest ≤ ring.nodes }
    requires fit { DemandsFit ring.nodes (demands_of (R.rows rows.old)) }
    ensures demands { demands_of (R.rows rows.new) ≡ demands_of (R.rows rows.old) }
    ensures goes { GoesOrNone ring.nodes (demands_of (R.rows rows.old)) rule (R.rows rows.new)
        result }
{
    match rule {
        LeastRule::Turns => Some(turns::turn_rows(ring.nodes, rows).peak),
        LeastRule::BestChoice(engine) => match router::route_best(engine, ring, rows) {
            Ok(plan) => Some(plan.figures.unsplit_peak),
            Err(_) => None,
        },
        LeastRule::RuleD(engine) => Some(router::route(engine, ring, rows).figures.unsplit_peak),
    }
}

impl Tried {
    // The less of it and of a rule with a smaller number, which also wins where both peaks are the same; if that rule gave one.
    #[tactic(auto, unfolding(crate::specs::Trying::less_of))]
    fn against(self, rule: LeastRule, peak: Option<u32>) -> Tried
        ensures { result ≡ less_of self rule peak }
    {
        match peak {
            Some(peak) if peak <= self.peak => Tried { rule, peak },
            _ => self,
        }
    }
}

/// Rows go whole by the rule that comes to the least peak: one turn at a time, the best choice where at most 16 rows are left split, or rule D, both of these by
/// level rooms and by lowered ones; of rules with the same peak the one named first. Answers that peak, the floor, which is M/2 rounded up, and the rule. A ring has
/// 2 to 64 nodes; there are at most 1,024 rows, each on the ring, with an amount of at most 9,999; how they were sent before does not matter.
pub fn route_least<R: RowsMut>(ring: Ring, rows: &mut R) -> Least
    requires two { desk.fewest ≤ ring.nodes }
    requires fit { DemandsFit ring.nodes (demands_of (R.rows rows.old)) }
    ensures demands { demands_of (R.rows rows.new) ≡ demands_of (R.rows rows.old) }
    ensures least { LeastIs ring.nodes (demands_of (R.rows rows.old)) result (R.rows rows.new) }
    ensures floor { NoPeakBelow ring.nodes (demands_of (R.rows rows.old)) result.floor }
{
    let plan = router::route(Engine::Lowered, ring, rows);
    let floor = plan.figures.cut.across.div_ceil(2);
    // from the last rule to the first: the turns, which mostly come to the least peak and take longest, are then made once
    let mut least = Tried {
        rule: LeastRule::RuleD(Engine::Lowered),
        peak: plan.figures.unsplit_peak,
    };
    for rule in [
        LeastRule::RuleD(Engine::Level),
        LeastRule::BestChoice(Engine::Lowered),
        LeastRule::BestChoice(Engine::Level),
    ] {
        least = least.against(rule, go_by(rule, ring, rows));
    }
    let peak = turns::turn_rows(ring.nodes, rows).peak;
    if peak <= least.peak {
        return Least {
            peak,
            floor,
            rule: LeastRule::Turns,
        };
    }
    go_by(least.rule, ring, rows);
    Least {
        peak: least.peak,
        floor,
        rule: least.rule,
    }
}
