//! All choices for split rows: each sends every row front or back.
ghost use Rattle.std.specs.Prelude.{◌≡◌, ◌+◌, ◌*◌, ◌^◌, ◌≤◌, [], ◌∷◌, length};
ghost use Rattle.ring.specs.Routing.{peak};
ghost use Rattle.weight.specs.LinkSteps.{link_at};
ghost use Rattle.best.specs.Best.{most_split};
ghost use Rattle.best.specs.Tries.{better_of, tried_in, Turnable, TurnedBack, UnsplitOf};

use ring::{Demand, LINKS, Link};
use weight::step_over;

/// A choice, with the peak that it has, in units: a bit for each split row, the first row's the highest; 1 is a row that goes back.
#[derive(Clone, Copy)]
pub(crate) struct Tried {
    pub peak: u32,
    pub choice: u32,
}

// A later choice takes the place of an earlier one only where its peak is lower, or is the same with fewer rows turned back.
#[tactic(auto, unfolding(crate::specs::Tries::better_of))]
fn better(earlier: Tried, later: Tried) -> Tried
    ensures { result ≡ better_of earlier later }
{
    let fewer = later.choice.count_ones() < earlier.choice.count_ones();
    if later.peak < earlier.peak || later.peak == earlier.peak && fewer {
        later
    } else {
        earlier
    }
}

// The largest load.
#[tactic(auto, using(crate::proofs::TrySteps::peak_turn), unfolding(ring::specs::Routing::peak))]
fn peak(loads: &[u32]) -> u32
    ensures { result ≡ peak (link_at loads.now) (length loads.now) }
{
    let mut most: u32 = 0;
    for load in loads {
        most = most.max(*load);
    }
    most
}

// The loads behind a row that is turned back.
fn turned_back(loads: &[u32; LINKS], n: usize, row: Demand) -> [u32; LINKS]
    requires { Turnable n (row ∷ []) loads.now }
    ensures { TurnedBack n row loads.now result }
{
    let mut turned = *loads;
    step_over(
        &mut turned[..n],
        row,
        |load| load - row.amount,
        |load| load + row.amount,
    );
    turned
}

/// The unsplit loads of links, in units.
pub(crate) fn unsplit_loads(links: &[Link; LINKS]) -> [u32; LINKS]
    ensures { UnsplitOf links.now result }
{
    let mut loads: [u32; LINKS] = [0; LINKS];
    for (k, load) in loads.iter_mut().enumerate() {
        *load = links[k].unsplit;
    }
    loads
}

/// All choices for these rows behind one for the rows before them, in rising order, and the best so far. In the loads these rows go front.
pub(crate) fn try_all(
    split: &[Demand],
    loads: &[u32; LINKS],
    n: usize,
    choice: u32,
    best: Tried,
) -> Tried
    requires few { (choice + 1) * 2 ^ length split.now ≤ 2 ^ most_split }
    requires loads { Turnable n split.now loads.now }
    ensures { result ≡ tried_in n (link_at loads.now) split.now choice best }
{
    let Some((row, rest)) = split.split_first() else {
        let tried = Tried {
            peak: peak(&loads[..n]),
            choice,
        };
        return better(best, tried);
    };
    let turned = turned_back(loads, n, *row);
    let best = try_all(rest, loads, n, 2 * choice, best);
    try_all(rest, &turned, n, 2 * choice + 1, best)
}
