//! The loads of links, and what a row is chosen by, by the marks of the ring: one stands before link 1 and one behind each link, so that node i is at mark i - 1.
ghost use Rattle.std.specs.Prelude.{suc, ◌+◌, ◌≡◌, ◌≤◌, [], length, take};
ghost use Rattle.ring.specs.Demand.{OnRing};
ghost use Rattle.ring.specs.Routing.{peak};
ghost use Rattle.ring.specs.Limits.{desk};
ghost use Rattle.weight.specs.LinkSteps.{link_at};
ghost use Rattle.turns.specs.Choosing.{off_top, span_top, path_key, rank_weight, all_weights};
ghost use Rattle.turns.specs.TurnedLoads.{Carries, RoomFor, PathCarries, LoadsTurned};
ghost use Rattle.turns.specs.Starts.{across_between};

use crate::keys::{fill_keys, rank_weight};
use crate::start::loads_avoiding;
use across::PLACES;
use ring::{LINKS, Routed, Way};
use std::marker::Model;
use weight::step_over;

/// One mark more than there are links, since one stands before link 1 and one behind each link.
pub(crate) const MARKS: usize = LINKS + 1;

/// The loads of a ring's links, and the weights of the links up to each mark together. It is made where it stays, and lent, since a struct that a function
/// answers is copied.
#[derive(Drop)]
pub(crate) struct Loads {
    pub links: usize,
    pub loads: [u32; LINKS],
    pub keys: [u64; MARKS],
}

// A caller sees the loads, link k's at place k-1.
impl Model for Loads {
    ghost use Rattle.std.specs.Prelude.{ℕ, List};

    ghost Value = { List ℕ };

    ghost use Rattle.turns.specs.Loads.{loads_in, Figured};

    ghost view = { loads_in };

    ghost invariant = { Figured };
}

// The largest load of the links from mark p to mark q. Not inlined: `pick`'s loop asks it seldom, and would lack the registers.
#[inline(never)]
#[tactic(auto, using(crate::proofs::TopSteps::top_laws))]
fn top(loads: &[u32], p: usize, q: usize) -> u32
    requires order { p ≤ q }
    requires within { q ≤ length loads.now }
    ensures { result ≡ span_top (link_at loads.now) (suc p) q }
{
    let mut most: u32 = 0;
    for load in &loads[p..q] {
        most = most.max(*load);
    }
    most
}

// What a row sends leaves its path, and goes over the other links.
fn turn_loads(loads: &mut [u32; LINKS], links: usize, row: Routed)
    requires few { links ≤ desk.nodes }
    requires row { OnRing links row.sent.demand }
    requires room { RoomFor row.sent.demand.amount (take links loads.old) }
    requires path { PathCarries row (take links loads.old) }
    ensures turned { LoadsTurned row (take links loads.old) (take links loads.new) }
    ensures size { length loads.new ≡ desk.nodes }
{
    let demand = row.sent.demand;
    let (front, back) = row.way.whole(demand.amount);
    step_over(
        &mut loads[..links],
        demand,
        |load| load + back - front,
        |load| load + front - back,
    );
}

impl Loads {
    /// No links.
    pub fn new() -> Self
        ensures { result ≡ [] }
    {
        Loads {
            links: 0,
            loads: [0; LINKS],
            keys: [0; MARKS],
        }
    }

    /// The loads of the start that avoids a link.
    pub fn avoid(&mut self, triangle: &[u32; PLACES], n: usize, link: usize)
        requires few { n ≤ desk.nodes }
        requires low { 1 ≤ link }
        requires high { link ≤ n }
        ensures size { length self.new ≡ n }
        ensures carries { Carries (λ h. across_between triangle.now link h) self.new }
    {
        let avoiding = loads_avoiding(triangle, n, link);
        fill_keys(&avoiding[..n], &mut self.keys);
        self.loads = avoiding;
        self.links = n;
    }

    // The loads of the ring's links.
    fn seen(&self) -> &[u32]
        ensures is { result.now ≡ self.now }
        ensures few { length self.now ≤ desk.nodes }
    {
        &self.loads[..self.links]
    }

    /// A row is turned in the loads.
    pub fn turn(&mut self, row: Routed)
        requires row { OnRing (length self.old) row.sent.demand }
        requires room { RoomFor row.sent.demand.amount self.old }
        requires path { PathCarries row self.old }
        ensures { LoadsTurned row self.old self.new }
    {
        turn_loads(&mut self.loads, self.links, row);
        fill_keys(&self.loads[..self.links], &mut self.keys);
    }

    /// The largest load.
    #[tactic(auto, using(crate::proofs::TopSteps::peak_is))]
    pub fn peak(&self) -> u32
        ensures { result ≡ peak (link_at self.now) (length self.now) }
    {
        top(self.seen(), 0, self.links)
    }

    /// The largest load off a row's path.
    #[tactic(auto, using(crate::proofs::TopSteps::off_laws))]
    pub fn off_path(&self, row: Routed) -> u32
        requires { OnRing (length self.now) row.sent.demand }
        ensures { result ≡ off_top (length self.now) (link_at self.now) row }
    {
        let from = row.sent.demand.first as usize - 1;
        let to = row.sent.demand.second as usize - 1;
        let loads = self.seen();
        match row.way {
            Way::Front => top(loads, 0, from).max(top(loads, to, self.links)),
            Way::Back => top(loads, from, to),
        }
    }

    /// What stands for a row's list: the weights on its path together.
    #[tactic(auto, using(crate::proofs::KeySteps::key_laws))]
    pub fn path_key(&self, row: Routed) -> u64
        requires { OnRing (length self.now) row.sent.demand }
        ensures { result ≡ path_key (length self.now) (link_at self.now) row }
    {
        let from = row.sent.demand.first as usize - 1;
        let to = row.sent.demand.second as usize - 1;
        let front = self.keys[to] - self.keys[from];
        match row.way {
            Way::Front => front,
            Way::Back => self.keys[self.links] - front,
        }
    }

    /// What the weights of all links are above that of a link with the peak: each row whose turn lowers the peak has all such links on its path, so that its key is
    /// above this.
    #[tactic(auto, using(crate::proofs::KeySteps::below_laws))]
    pub fn below_keys(&self, largest: u32) -> u64
        requires some { 1 ≤ length self.now }
        requires largest { largest ≡ peak (link_at self.now) (length self.now) }
        ensures { result + rank_weight (length self.now) (link_at self.now) largest
            ≡ all_weights (length self.now) (link_at self.now) }
    {
        self.keys[self.links] - rank_weight(self.seen(), largest)
    }
}
