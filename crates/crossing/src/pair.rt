//! The first pair of split rows that are parallel, in rule C's order.
ghost use Rattle.std.specs.Prelude.{◌≡◌};
ghost use Rattle.ring.specs.Sheet.{sents};
ghost use Rattle.ring.specs.Crossing.{distinct as distinct_of, between as between_of, parallel as parallel_of};
ghost use Rattle.ring.specs.RuleC.{clash};
ghost use Rattle.crossing.specs.FindPair.{first_pair};

use ring::{Demand, Sent, both_split};
use rows::Rows;

/// Two rows by their places among all rows, counted from 1, the first before the second; or none.
#[derive(Clone, Copy)]
pub enum Pair {
    Are(usize, usize),
    None,
}

// ---- two rows

// Whether the nodes of two rows are four.
fn distinct(a: Demand, b: Demand) -> bool
    ensures { result ≡ distinct_of a b }
{
    a.first != b.first && a.first != b.second && a.second != b.first && a.second != b.second
}

// Whether a node lies strictly between the nodes of a row.
fn between(row: Demand, node: u32) -> bool
    ensures { result ≡ between_of row node }
{
    row.first < node && node < row.second
}

// Whether two rows are parallel: they do not cross. The test is by nodes; one by fronts would need the first node of each below its second.
#[tactic(auto, unfolding(ring::specs::Crossing::parallel, ring::specs::Crossing::crosses))]
fn parallel(a: Demand, b: Demand) -> bool
    ensures { result ≡ parallel_of a b }
{
    !distinct(a, b) || between(a, b.first) == between(a, b.second)
}

// Whether two rows are both split, and parallel.
#[tactic(auto, unfolding(ring::specs::RuleC::clash))]
fn clashes(a: Sent, b: Sent) -> bool
    ensures { result ≡ clash a b }
{
    both_split(a, b) && parallel(a.demand, b.demand)
}

// ---- all rows

/// The first pair of split rows that are parallel, by first and then by second.
pub fn first_pair<R: Rows>(rows: &R) -> Pair
    ensures { result ≡ first_pair (sents (R.rows rows.now)) }
{
    let mut found = Pair::None;
    let count = rows.count();
    'search: for a in 0..count {
        let one = rows.row(a).sent;
        for b in a + 1..count {
            let two = rows.row(b).sent;
            if clashes(one, two) {
                found = Pair::Are(a + 1, b + 1);
                break 'search;
            }
        }
    }
    found
}
