//! The row to turn: in falling order the first whose turn lowers the peak. It is the greatest of those whose turn does, so that nothing is sorted.
ghost use Rattle.std.specs.Prelude.{◌+◌, ◌≡◌, ◌≤◌, ltb, length};
ghost use Rattle.ring.specs.Demand.{OnRing};
ghost use Rattle.ring.specs.Routing.{unsplit_load, peak};
ghost use Rattle.ring.specs.Sheet.{demands_of};
ghost use Rattle.across.specs.Filled.{DemandsFit};
ghost use Rattle.weight.specs.LinkSteps.{link_at};
ghost use Rattle.turns.specs.Choosing.{off_top, lowers_by};
ghost use Rattle.turns.specs.Picks.{Picks};
ghost use Rattle.turns.specs.TurnedLoads.{Carries};

use crate::loads::Loads;
use ring::Routed;
use rows::Rows;

/// The place of the row that is kept, if one is, and the key that a later row has to be above: that row's, or one that is below all keys of rows whose turn
/// lowers the peak.
#[derive(Clone, Copy)]
pub(crate) struct BestRow {
    pub place: Option<usize>,
    pub key: u64,
}

// Whether a load stays below the peak where it rises by an amount.
fn stays_below(load: u32, amount: u32, peak: u32) -> bool
    ensures { result ≡ ltb (load + amount) peak }
{
    load < peak && amount < peak - load
}

// Whether the turn of a row lowers the peak, by the largest load off its path. A row of amount 0 does not, and its path is not looked at.
fn turn_lowers(loads: &Loads, peak: u32, row: Routed) -> bool
    requires { OnRing (length loads.now) row.sent.demand }
    ensures { result
        ≡ lowers_by (off_top (length loads.now) (link_at loads.now) row)
        row.sent.demand.amount peak }
{
    let amount = row.sent.demand.amount;
    amount > 0 && stays_below(loads.off_path(row), amount, peak)
}

/// The place of the row to turn, if there is one. Of equal lists the earlier row stays. Most rows do not beat the one that is kept, so that is asked first, and
/// a row is read again where it does: what its key does not take would be read in vain. It is told the largest load.
pub(crate) fn pick<R: Rows>(rows: &R, loads: &Loads, largest: u32) -> Option<usize>
    requires some { 1 ≤ length loads.now }
    requires fit { DemandsFit (length loads.now) (demands_of (R.rows rows.now)) }
    requires carries { Carries (unsplit_load (R.rows rows.now)) loads.now }
    requires largest { largest ≡ peak (link_at loads.now) (length loads.now) }
    ensures { Picks (length loads.now) (R.rows rows.now) result }
{
    let mut best = BestRow {
        place: None,
        key: loads.below_keys(largest),
    };
    for place in 0..rows.count() {
        let key = loads.path_key(rows.row(place));
        if best.key < key && turn_lowers(loads, largest, rows.row(place)) {
            best = BestRow {
                place: Some(place),
                key,
            };
        }
    }
    best.place
}
