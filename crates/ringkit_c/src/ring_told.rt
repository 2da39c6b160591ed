//! The ring that C tells in numbers.
ghost use Rattle.std.specs.Prelude.{◌≡◌};
ghost use Rattle.ringkit_c.specs.Replies.{ring_told};

use family::Family;
use ring::Ring;

/// A ring of so many nodes and fibres, of a family: SONET where its number is 0, SDH where it is any other.
pub(crate) fn ring_told(nodes: u32, fibres: u32, family: u32) -> Ring
    ensures { result ≡ ring_told nodes fibres family }
{
    Ring {
        nodes,
        fibres,
        family: Family::of(family),
    }
}
