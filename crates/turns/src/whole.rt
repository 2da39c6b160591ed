//! Rows that go whole.
ghost use Rattle.std.specs.Prelude.{◌≡◌, ◌≤◌};
ghost use Rattle.ring.specs.Limits.{desk};
ghost use Rattle.turns.specs.Turns.{whole, other_way};

use ring::{Demand, Routed, Sent, Way};

/// A demand that goes whole: all its halves go that way.
pub(crate) fn whole(demand: Demand, way: Way) -> Routed
    requires { demand.amount ≤ desk.amount }
    ensures { result ≡ whole demand way }
{
    let (front, back) = way.whole(2 * demand.amount);
    Routed {
        sent: Sent {
            demand,
            front,
            back,
        },
        way,
    }
}

/// The other way round.
pub(crate) fn other_way(way: Way) -> Way
    ensures { result ≡ other_way way }
{
    match way {
        Way::Front => Way::Back,
        Way::Back => Way::Front,
    }
}
