//! An empty table.
ghost use Rattle.std.specs.Prelude.{◌≡◌};
ghost use Rattle.work.specs.Bytes.{fresh_in};
ghost use Rattle.work.specs.Changes.{started_in};

use crate::answer::recut;
use crate::{Changed, HeldRing, Work};
use across::PAIRS;
use reasons::{Reason, check_ring};
use ring::{Cut, ROWS, Ring};

#[tactic(auto, unfolding(crate::specs::Bytes::fresh_in))]
fn fresh(ring: Ring) -> Work
    ensures { result ≡ fresh_in ring }
{
    Work {
        triangle: [0u32; PAIRS],
        ring: HeldRing::of(ring),
        cut: Cut {
            g: 0,
            h: 0,
            across: 0,
        },
        amount: [0u16; ROWS],
        first: [0u8; ROWS],
        second: [0u8; ROWS],
    }
}

/// A table of a ring with no row. Refused with 3 where the nodes are outside 2 to 64, then with 20 where the fibres are neither 2 nor 4.
#[tactic(auto, unfolding(reasons::specs::Faults::ring_found, reasons::specs::Faults::verdict_found, crate::specs::Changes::started_in))]
pub fn started(ring: Ring) -> Result<Changed, Reason>
    ensures { result ≡ started_in ring }
{
    check_ring(ring).map_err(|fault| fault.reason)?;
    Ok(recut(fresh(ring), 0))
}
