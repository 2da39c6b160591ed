//! All turns of a start.
ghost use Rattle.std.specs.Prelude.{◌+◌, ◌≤◌, ◌<◌, length};
ghost use Rattle.ring.specs.Routing.{unsplit_load};
ghost use Rattle.ring.specs.Sheet.{demands_of};
ghost use Rattle.across.specs.Filled.{DemandsFit};
ghost use Rattle.weight.specs.Limits.{across_bound};
ghost use Rattle.turns.specs.Turns.{peak_of};
ghost use Rattle.turns.specs.Settles.{Wholes, TurnsTo, NextRow, SettlesTo};
ghost use Rattle.turns.specs.TurnedLoads.{Carries};

use crate::loads::Loads;
use crate::pick::pick;
use crate::whole::{other_way, whole};
use rows::{Rows, RowsMut};

// The row at a place turned, and the loads with it. Not inlined: in the loop of `pick` its reads would take registers.
#[inline(never)]
#[tactic(auto, using(crate::proofs::TurnSteps::row_laws))]
fn turn_row<R: RowsMut>(rows: &mut R, place: usize, loads: &mut Loads)
    requires fit { DemandsFit (length loads.old) (demands_of (R.rows rows.old)) }
    requires place { place < length (R.rows rows.old) }
    requires carries { Carries (unsplit_load (R.rows rows.old)) loads.old }
    ensures { TurnsTo place (R.rows rows.old) (R.rows rows.new) loads.old loads.new }
{
    let row = rows.row(place);
    loads.turn(row);
    rows.put(place, whole(row.sent.demand, other_way(row.way)));
}

/// Where turns are left off, though one may lower the peak: at a peak that is at most this, or where so many are made.
#[derive(Clone, Copy)]
pub(crate) struct Limit {
    pub peak: u32,
    pub turns: u32,
}

// The place of the row to turn, if there is one and turns are not left off.
fn next_row<R: Rows>(rows: &R, loads: &Loads, limit: Limit, turns: u32) -> Option<usize>
    requires some { 1 ≤ length loads.now }
    requires fit { DemandsFit (length loads.now) (demands_of (R.rows rows.now)) }
    requires carries { Carries (unsplit_load (R.rows rows.now)) loads.now }
    ensures { NextRow limit turns (length loads.now) (R.rows rows.now) result }
{
    let peak = loads.peak();
    if peak <= limit.peak || limit.turns <= turns {
        return None;
    }
    pick(rows, loads, peak)
}

/// Turn after turn, until none lowers the peak or they are left off; so many turns, with those that were made before.
pub(crate) fn settle<R: RowsMut>(rows: &mut R, loads: &mut Loads, limit: Limit, before: u32) -> u32
    requires some { 1 ≤ length loads.old }
    requires fit { DemandsFit (length loads.old) (demands_of (R.rows rows.old)) }
    requires carries { Carries (unsplit_load (R.rows rows.old)) loads.old }
    requires whole { Wholes (R.rows rows.old) }
    requires small { before + peak_of (length loads.old) (R.rows rows.old) ≤ across_bound }
    ensures { SettlesTo limit (length loads.old) (R.rows rows.old) (R.rows rows.new) loads.new before
        result }
{
    let mut turns = before;
    while let Some(place) = next_row(rows, loads, limit, turns) {
        turn_row(rows, place, loads);
        turns += 1;
    }
    turns
}
