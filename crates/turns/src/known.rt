//! What an earlier start came to, to be known again: where a later start comes to the same ways, it ends with the same peak.
ghost use Rattle.std.specs.Prelude.{◌≡◌, ◌≤◌, length};
ghost use Rattle.ring.specs.Limits.{desk};
ghost use Rattle.turns.specs.Known.{same_way, differs, Noted, IfSame};

use ring::{ROWS, Routed, Way};
use rows::Rows;

/// The ways that the rows of an earlier start had at some time, and the peak at which a later start is held to them.
#[derive(Drop)]
pub(crate) struct Known {
    pub peak: u32,
    pub ways: [Way; ROWS],
}

// Whether two ways are one.
fn same_way(one: Way, other: Way) -> bool
    ensures { result ≡ same_way one other }
{
    match (one, other) {
        (Way::Front, Way::Front) => true,
        (Way::Front, Way::Back) => false,
        (Way::Back, Way::Front) => false,
        (Way::Back, Way::Back) => true,
    }
}

// Whether a row goes another way; of a row of amount 0 it does not matter.
fn differs(row: Routed, way: Way) -> bool
    ensures { result ≡ differs row way }
{
    row.sent.demand.amount > 0 && !same_way(way, row.way)
}

/// The ways of rows are noted.
#[tactic(auto, using(crate::proofs::KnownSteps::note_laws))]
pub(crate) fn note_ways<R: Rows>(rows: &R, ways: &mut [Way; ROWS])
    requires { length (R.rows rows.now) ≤ desk.rows }
    ensures { Noted (R.rows rows.now) ways.new }
{
    for k in 0..rows.count() {
        ways[k] = rows.row(k).way;
    }
}

/// Whether rows have these ways; of a row of amount 0 it does not matter.
#[tactic(auto, using(crate::proofs::KnownSteps::same_laws))]
pub(crate) fn same_ways<R: Rows>(rows: &R, ways: &[Way; ROWS]) -> bool
    requires { length (R.rows rows.now) ≤ desk.rows }
    ensures { IfSame result (R.rows rows.now) ways.now }
{
    for k in 0..rows.count() {
        if differs(rows.row(k), ways[k]) {
            return false;
        }
    }
    true
}
