//! Which family of line sizes it is.
ghost use Rattle.std.specs.Prelude.{◌≡◌};
ghost use Rattle.family.specs.Size.{smallest_in, Answers};
ghost use Rattle.family.specs.Sizes.{sizes_of, family_of, family_number};

use crate::{LineSizes, Sdh, Sonet};

/// A family of line sizes by its name.
#[derive(Clone, Copy, PartialEq, Eq)]
pub enum Family {
    Sonet = 0,
    Sdh = 1,
}

impl Family {
    /// A family by its number: 0 is SONET, any other is SDH.
    pub fn of(number: u32) -> Self
        ensures { result ≡ family_of number }
    {
        if number == Family::Sonet as u32 {
            Family::Sonet
        } else {
            Family::Sdh
        }
    }

    /// Its number, 0 or 1.
    pub fn number(self) -> u32
        ensures { result ≡ family_number self }
    {
        self as u32
    }

    /// Its smallest size that is at least a peak, 0 if none is.
    pub fn size(self, peak: u32) -> u32
        ensures first { result ≡ smallest_in (sizes_of self) peak }
        ensures smallest { Answers (sizes_of self) peak result }
    {
        match self {
            Family::Sonet => Sonet::size(peak),
            Family::Sdh => Sdh::size(peak),
        }
    }
}
