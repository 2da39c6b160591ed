#![tactic(auto)]
//! One turn at a time: from each start, at which every row avoids one link, the row of the largest loads whose turn lowers the peak is turned, until no turn
//! lowers it.
mod known; // what an earlier start came to
mod keys; // sums of weights, by which lists of loads are compared
mod loads; // loads, and what a row is chosen by
mod pick; // the row to turn
mod settle; // all turns of a start
mod start; // the start that avoids a link
mod whole; // rows that go whole

ghost use Rattle.std.specs.Prelude.{◌+◌, ◌≡◌, ◌≤◌, ◌<◌, length};
ghost use Rattle.ring.specs.Routing.{unsplit_load, peak};
ghost use Rattle.weight.specs.Limits.{across_bound};
ghost use Rattle.weight.specs.LinkSteps.{link_at};
ghost use Rattle.ring.specs.Limits.{desk};
ghost use Rattle.ring.specs.RuleA.{largest_across};
ghost use Rattle.ring.specs.Sheet.{demands_of};
ghost use Rattle.across.specs.Filled.{DemandsFit, TriangleOf};
ghost use Rattle.turns.specs.Turns.{peak_of, from_start, least_start};
ghost use Rattle.turns.specs.Promised.{
  LeastOfStarts,
  NoTurnLowers,
  TurnsLower,
  StartLoads,
  StartsEnd,
  StartsWithinM,
  WaysFloor,
};
ghost use Rattle.turns.specs.Starts.{lower_of};
ghost use Rattle.turns.specs.Settles.{Wholes, SettlesTo, no_limit};
ghost use Rattle.turns.specs.TurnedLoads.{Carries};
ghost use Rattle.turns.specs.Known.{NotedOn, Made, StartTried, LastIs, tried_with};

use across::{PLACES, fill, largest_cut};
use known::{Known, note_ways, same_ways};
use loads::Loads;
use ring::{ROWS, Way};
use rows::RowsMut;
use settle::{Limit, settle};
use start::{meets, route_avoiding};

/// The figures of an answer: its peak in units, the link that its start avoided, and how many turns it took from there.
#[derive(Clone, Copy)]
pub struct Turned {
    pub peak: u32,
    pub link: u32,
    pub turns: u32,
}

// So many turns are made of a start before its ways are noted, to know a later start by them. Starts that come to one another mostly do so early.
const EARLY: u32 = 64;

// Turns are left off where none lowers the peak.
const NO_LIMIT: Limit = Limit {
    peak: 0,
    turns: u32::MAX,
};

// The turns that are left of a start are made. Its ways are noted early, behind those that it was held to: so where starts come to one another late, they are held
// to later ways from one start to the next.
fn finish<R: RowsMut>(
    rows: &mut R,
    loads: &mut Loads,
    link: u32,
    before: u32,
    known: &mut Known,
) -> Turned
    requires some { 1 ≤ length loads.old }
    requires fit { DemandsFit (length loads.old) (demands_of (R.rows rows.old)) }
    requires carries { Carries (unsplit_load (R.rows rows.old)) loads.old }
    requires whole { Wholes (R.rows rows.old) }
    requires small { before + peak_of (length loads.old) (R.rows rows.old) ≤ across_bound }
    ensures settles { SettlesTo no_limit (length loads.old) (R.rows rows.old) (R.rows rows.new) loads.new
        before result.turns }
    ensures peak { result.peak ≡ peak (link_at loads.new) (length loads.new) }
    ensures link { result.link ≡ link }
    ensures noted { NotedOn (length loads.old) (R.rows rows.old) before known.new.ways }
{
    let early = Limit {
        peak: 0,
        turns: before + EARLY,
    };
    let so_far = settle(rows, loads, early, before);
    note_ways(rows, &mut known.ways);
    known.peak = loads.peak();
    let turns = settle(rows, loads, NO_LIMIT, so_far);
    Turned {
        peak: loads.peak(),
        link,
        turns,
    }
}

// What the start that avoids a link leads to.
fn from_start<R: RowsMut>(
    triangle: &[u32; PLACES],
    n: usize,
    link: u32,
    rows: &mut R,
    known: &mut Known,
) -> Turned
    requires fit { DemandsFit n (demands_of (R.rows rows.old)) }
    requires triangle { TriangleOf n (demands_of (R.rows rows.old)) triangle.now }
    requires low { 1 ≤ link }
    requires high { link ≤ n }
    ensures demands { demands_of (R.rows rows.new) ≡ demands_of (R.rows rows.old) }
    ensures made { Made n (demands_of (R.rows rows.old)) link known.new.ways (R.rows rows.new) result }
{
    route_avoiding(rows, link);
    let mut loads = Loads::new();
    loads.avoid(triangle, n, link as usize);
    finish(rows, &mut loads, link, 0, known)
}

// The same of a later start; or nothing, where it comes to the ways that were noted of an earlier one, and so to its peak. The rows are then left on their way.
fn try_start<R: RowsMut>(
    triangle: &[u32; PLACES],
    n: usize,
    link: u32,
    rows: &mut R,
    known: &mut Known,
) -> Option<Turned>
    requires fit { DemandsFit n (demands_of (R.rows rows.old)) }
    requires triangle { TriangleOf n (demands_of (R.rows rows.old)) triangle.now }
    requires low { 1 ≤ link }
    requires high { link ≤ n }
    ensures demands { demands_of (R.rows rows.new) ≡ demands_of (R.rows rows.old) }
    ensures tried { StartTried n (demands_of (R.rows rows.old)) link known.old.ways known.new.ways
        (R.rows rows.new) result }
{
    route_avoiding(rows, link);
    let mut loads = Loads::new();
    loads.avoid(triangle, n, link as usize);
    let to_known = Limit {
        peak: known.peak,
        ..NO_LIMIT
    };
    let turns = settle(rows, &mut loads, to_known, 0);
    if same_ways(rows, &known.ways) {
        return None;
    }
    Some(finish(rows, &mut loads, link, turns, known))
}

// A later start takes the place of an earlier one only where its peak is less.
fn lower(earlier: Turned, later: Turned) -> Turned
    ensures { result ≡ lower_of earlier later }
{
    if later.peak < earlier.peak {
        later
    } else {
        earlier
    }
}

// The figures of the best start so far, and the link of the start whose ways the rows have; 0 where they were left on their way.
#[derive(Clone, Copy)]
struct Tried {
    best: Turned,
    last: u32,
}

impl Tried {
    // One start more, which was made or known again.
    fn with(self, link: u32, start: Option<Turned>) -> Tried
        ensures { result ≡ tried_with self link start }
    {
        match start {
            Some(later) => Tried {
                best: lower(self.best, later),
                last: link,
            },
            None => Tried {
                best: self.best,
                last: 0,
            },
        }
    }
}

// Start after start; the rows keep the ways of the last one made. No peak is below M/2: where one reaches that, rounded up, no later start takes its place.
// Where no row with an amount ends at the node between two links, their starts differ in rows of amount 0 alone, which no turn touches: the later start comes to
// the peak of the earlier, and is not made.
fn try_starts<R: RowsMut>(
    triangle: &[u32; PLACES],
    n: usize,
    rows: &mut R,
    known: &mut Known,
) -> Tried
    requires two { desk.fewest ≤ n }
    requires fit { DemandsFit n (demands_of (R.rows rows.old)) }
    requires triangle { TriangleOf n (demands_of (R.rows rows.old)) triangle.now }
    ensures best { result.best ≡ (least_start n (demands_of (R.rows rows.old))).figures }
    ensures last { LastIs n (demands_of (R.rows rows.old)) (R.rows rows.new) result.last }
{
    let floor = largest_cut(triangle, n).across.div_ceil(2);
    let mut tried = Tried {
        best: from_start(triangle, n, 1, rows, known),
        last: 1,
    };
    for done in 1..n {
        if tried.best.peak <= floor {
            return tried;
        }
        let link = done as u32 + 1;
        // node `link` lies between links link - 1 and link
        if meets(rows, link) {
            tried = tried.with(link, try_start(triangle, n, link, rows, known));
        }
    }
    tried
}

// The best of all starts. It is made once more if others were made after it, so that no ways are kept aside but those that were noted.
fn best_start<R: RowsMut>(triangle: &[u32; PLACES], n: usize, rows: &mut R) -> Turned
    requires two { desk.fewest ≤ n }
    requires fit { DemandsFit n (demands_of (R.rows rows.old)) }
    requires triangle { TriangleOf n (demands_of (R.rows rows.old)) triangle.now }
    ensures rows { R.rows rows.new ≡ (least_start n (demands_of (R.rows rows.old))).rows }
    ensures figures { result ≡ (least_start n (demands_of (R.rows rows.old))).figures }
{
    let mut known = Known {
        peak: 0,
        ways: [Way::Front; ROWS],
    };
    let tried = try_starts(triangle, n, rows, &mut known);
    if tried.best.link == tried.last {
        tried.best
    } else {
        from_start(triangle, n, tried.best.link, rows, &mut known)
    }
}

/// One turn at a time on a ring of 2 to 64 nodes: the rows go whole as the best of all starts ends, and its figures are answered. There are at most 1,024 rows,
/// each on the ring, with an amount of at most 9,999; how they were sent before does not matter.
pub fn turn_rows<R: RowsMut>(nodes: u32, rows: &mut R) -> Turned
    requires two { desk.fewest ≤ nodes }
    requires fit { DemandsFit nodes (demands_of (R.rows rows.old)) }
    ensures rows { R.rows rows.new ≡ (least_start nodes (demands_of (R.rows rows.old))).rows }
    ensures figures { result ≡ (least_start nodes (demands_of (R.rows rows.old))).figures }
    ensures demands { demands_of (R.rows rows.new) ≡ demands_of (R.rows rows.old) }
    ensures peak { result.peak ≡ peak_of nodes (R.rows rows.new) }
    ensures least { LeastOfStarts nodes (demands_of (R.rows rows.old)) result }
    ensures still { NoTurnLowers nodes (R.rows rows.new) }
    ensures turns { TurnsLower nodes (demands_of (R.rows rows.old)) result }
    ensures start { R.rows rows.new
        ≡ (from_start nodes (demands_of (R.rows rows.old)) result.link).rows }
    ensures loads { StartLoads (demands_of (R.rows rows.old)) }
    ensures ends { StartsEnd nodes (demands_of (R.rows rows.old)) }
    ensures starts { StartsWithinM nodes (demands_of (R.rows rows.old)) }
    ensures most { result.peak ≤ largest_across nodes (demands_of (R.rows rows.old)) }
    ensures floor { WaysFloor nodes (demands_of (R.rows rows.old)) }
{
    let n = nodes as usize;
    let mut triangle: [u32; PLACES] = [0; PLACES];
    fill(&mut triangle, n, rows);
    best_start(&triangle, n, rows)
}
