#![tactic(auto)]
// What routed rows weigh: the loads of all links and their peaks; and D, the largest amount of a split row.
mod spans;

ghost use Rattle.std.specs.Prelude.{◌≡◌, ◌+◌, ◌≤◌, replicate};
ghost use Rattle.ring.specs.RuleD.{largest_split};
ghost use Rattle.ring.specs.Sheet.{sents};
ghost use Rattle.ring.specs.Limits.{desk};
ghost use Rattle.weight.specs.Limits.{load_bound};
ghost use Rattle.weight.specs.LinkSteps.{loaded};
ghost use Rattle.weight.specs.Rows.{Fit};
ghost use Rattle.weight.specs.Weighed.{no_link, links_in, weight_in};

use ring::{LINKS, Link, is_split};
use rows::{Rows, each};
pub use spans::step_over;

/// The links of a ring with their loads by rows as they are routed, link k at place k-1, with zeros behind the last; and their peaks. The split loads and
/// `split_peak` are in halves, the unsplit loads and `unsplit_peak` in units.
#[derive(Drop)]
pub struct Weight {
    pub links: [Link; LINKS],
    pub split_peak: u32,
    pub unsplit_peak: u32,
}

/// D, in units: the largest amount of a split row, however rows are held; 0 where none is split.
#[tactic(auto, using(crate::proofs::Weighing::top_split, crate::proofs::Weighing::top_whole, crate::proofs::Weighing::top_last))]
pub fn largest_split<R: Rows>(rows: &R) -> u32
    ensures { result ≡ largest_split (sents (R.rows rows.now)) }
{
    let mut largest: u32 = 0;
    for row in each(rows) {
        if is_split(row.sent) {
            largest = largest.max(row.sent.demand.amount);
        }
    }
    largest
}

// A link that carries so much more of each load.
fn loaded(link: Link, split: u32, unsplit: u32) -> Link
    requires split { link.split + split ≤ load_bound }
    requires unsplit { link.unsplit + unsplit ≤ load_bound }
    ensures { result ≡ loaded link split unsplit }
{
    Link {
        split: link.split + split,
        unsplit: link.unsplit + unsplit,
        ..link
    }
}

// Links that carry none are numbered, and the loads of all rows put on them. Apart from `weigh`, so that links are made where they are answered: links that are
// moved are copied.
fn carry<R: Rows>(nodes: u32, rows: &R, links: &mut [Link; LINKS])
    requires fit { Fit nodes (R.rows rows.now) }
    requires none { links.old ≡ replicate desk.nodes no_link }
    ensures { links.new ≡ links_in nodes (R.rows rows.now) }
{
    let n = nodes as usize;
    for (k, link) in links[..n].iter_mut().enumerate() {
        link.link = k as u32 + 1;
    }
    for row in each(rows) {
        let sent = row.sent;
        let (front, back) = row.way.whole(sent.demand.amount);
        step_over(
            &mut links[..n],
            sent.demand,
            |link| loaded(link, sent.front, front),
            |link| loaded(link, sent.back, back),
        );
    }
}

/// The weight of rows on a ring of so many nodes, at most 64, however they are held.
pub fn weigh<R: Rows>(nodes: u32, rows: &R) -> Weight
    requires { Fit nodes (R.rows rows.now) }
    ensures { result ≡ weight_in nodes (R.rows rows.now) }
{
    let mut weight = Weight {
        links: [Link::default(); LINKS],
        split_peak: 0,
        unsplit_peak: 0,
    };
    carry(nodes, rows, &mut weight.links);
    for link in &weight.links[..nodes as usize] {
        weight.split_peak = weight.split_peak.max(link.split);
        weight.unsplit_peak = weight.unsplit_peak.max(link.unsplit);
    }
    weight
}
