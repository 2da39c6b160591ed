//! What a family of line sizes owns: its unit, its sizes and its smallest-size question.
ghost use Rattle.std.specs.Prelude.{◌≡◌, ℕ, List, true};
ghost use Rattle.family.specs.Size.{smallest_in, rises, Answers};

/// A family of line sizes. It has no values: what is said of a family hangs on its name.
pub trait LineSizes {
    /// One unit is one of these.
    const UNIT: [u8; 5];

    ghost UNIT: { List ℕ };

    /// Line sizes, in units, rising.
    const SIZES: [u32; 5];

    ghost SIZES: { List ℕ };

    /// The smallest of them that is at least a peak, 0 if none is.
    fn size(peak: u32) -> u32
        ensures first { result ≡ smallest_in SIZES peak }
        ensures smallest { Answers SIZES peak result }
    {
        smallest(&Self::SIZES, peak)
    }

    ghost rising: { rises SIZES ≡ true };
}

// The first of the sizes that is at least the peak, 0 if none is. It asks nothing of the list.
#[tactic(auto, unfolding(crate::specs::Size::smallest_in))]
fn smallest(sizes: &[u32], peak: u32) -> u32
    ensures { result ≡ smallest_in sizes.now peak }
{
    for &size in sizes {
        if size >= peak {
            return size;
        }
    }
    0
}
