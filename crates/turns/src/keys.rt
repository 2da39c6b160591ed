//! Each load's weight, and sums of weights: with them two rows' lists of loads are compared at once.
ghost use Rattle.std.specs.Prelude.{◌≡◌, ◌≤◌, length, leb, ltb};
ghost use Rattle.std.specs.List.{count_by};
ghost use Rattle.ring.specs.Limits.{desk};
ghost use Rattle.weight.specs.LinkSteps.{link_at};
ghost use Rattle.turns.specs.Choosing.{rank_weight, LoadOf, Keys};

use crate::loads::MARKS;

// How many links have a load that is not below v.
fn not_below(loads: &[u32], v: u32) -> u32
    requires { length loads.now ≤ desk.nodes }
    ensures { result ≡ count_by (λ load. leb v load) loads.now }
{
    loads.iter().map(|load| u32::from(v <= *load)).sum()
}

// How many links have a load below v: all others are counted, which takes fewer instructions.
#[tactic(auto, using(crate::proofs::KeySteps::rank_fits))]
fn rank(loads: &[u32], v: u32) -> u32
    requires { length loads.now ≤ desk.nodes }
    ensures { result ≡ count_by (λ load. ltb load v) loads.now }
{
    loads.len() as u32 - not_below(loads, v)
}

/// A load's weight: 1, doubled for each link whose load is less. There are at most 63 such links, since a load is not less than itself.
#[tactic(auto, using(crate::proofs::KeySteps::weight_is))]
pub(crate) fn rank_weight(loads: &[u32], v: u32) -> u64
    requires few { length loads.now ≤ desk.nodes }
    requires load { LoadOf loads.now v }
    ensures { result ≡ rank_weight (length loads.now) (link_at loads.now) v }
{
    // doubled, so that a load outweighs all smaller ones together: so the sums of two lists compare as the lists do, from the largest load on
    1 << rank(loads, v)
}

/// The weights of links 1 to k together, for each k.
#[tactic(auto, using(crate::proofs::KeySteps::sum_done))]
pub(crate) fn fill_keys(loads: &[u32], keys: &mut [u64; MARKS])
    requires { length loads.now ≤ desk.nodes }
    ensures { Keys (length loads.now) (link_at loads.now) keys.new }
{
    keys[0] = 0;
    let mut sum: u64 = 0;
    for (k, load) in loads.iter().enumerate() {
        sum += rank_weight(loads, *load);
        keys[k + 1] = sum;
    }
}
