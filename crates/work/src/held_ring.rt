//! The ring of a working table, as C lends it.
ghost use Rattle.std.specs.Prelude.{◌≡◌};
ghost use Rattle.work.specs.HeldRing.{ring_held};
ghost use Rattle.work.specs.Bytes.{as_held};

use family::Family;
use ring::Ring;

/// A ring in numbers, so that any bytes are a value: its nodes, its fibres, and its family, which is SONET where the number is 0 and SDH where it is any other.
#[repr(C)]
#[derive(Clone, Copy)]
pub struct HeldRing {
    pub nodes: u32,
    pub fibres: u32,
    pub family: u32,
}

impl HeldRing {
    /// A ring in numbers.
    pub(crate) fn of(ring: Ring) -> Self
        ensures { result ≡ as_held ring }
    {
        HeldRing {
            nodes: ring.nodes,
            fibres: ring.fibres,
            family: ring.family.number(),
        }
    }

    /// The same ring, with its family told by name.
    pub fn ring(self) -> Ring
        ensures { result ≡ ring_held self }
    {
        Ring {
            nodes: self.nodes,
            fibres: self.fibres,
            family: Family::of(self.family),
        }
    }
}
