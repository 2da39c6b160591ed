//! What a change answers, how many nodes it reckons with, and the step that every change ends in.
ghost use Rattle.std.specs.Prelude.{◌≡◌};
ghost use Rattle.work.specs.Bytes.{ring_size};
ghost use Rattle.work.specs.Changes.{recut_in};

use crate::Work;
use across::largest_kept_cut;
use ring::{Cut, FEWEST, NODES};

/// The place that a change names, counted from 1 (0 of a start, which names none), and the largest cut from then on, its across number in units.
#[derive(Clone, Copy)]
pub struct Placed {
    pub place: u32,
    pub cut: Cut,
}

/// What an accepted change answers, and the table behind it.
#[derive(Clone, Copy)]
pub struct Changed {
    pub placed: Placed,
    pub work: Work,
}

/// A ring size that the triangle has room for.
pub(crate) fn ring_size(nodes: u32) -> u32
    ensures { result ≡ ring_size nodes }
{
    nodes.clamp(FEWEST, NODES)
}

/// How many nodes the triangle is read for.
pub(crate) fn nodes(work: &Work) -> usize
    ensures { result ≡ ring_size work.now.ring.nodes }
{
    ring_size(work.ring.nodes) as usize
}

/// The rows have changed: the largest cut is looked for among the kept numbers. It is put into the table where that stays: a table made anew of the old one would take
/// another triangle of stack.
#[tactic(auto, unfolding(crate::specs::Changes::recut_in))]
pub(crate) fn recut(work: Work, place: u32) -> Changed
    ensures { result ≡ recut_in work place }
{
    let cut = largest_kept_cut(&work.triangle, nodes(&work));
    let mut changed = Changed {
        placed: Placed { place, cut },
        work,
    };
    changed.work.cut = cut;
    changed
}
