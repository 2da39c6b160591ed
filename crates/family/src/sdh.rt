//! The SDH family.
ghost use Rattle.std.specs.Prelude.{refl};
ghost use Rattle.family.specs.Sizes.{sdh_sizes, sdh_unit};

use crate::LineSizes;

/// SDH: units of STM-1.
#[derive(Drop)]
pub struct Sdh;

impl LineSizes for Sdh {
    const UNIT: [u8; 5] = *b"STM-1";

    ghost UNIT = { sdh_unit };

    const SIZES: [u32; 5] = [1, 4, 16, 64, 256];

    ghost SIZES = { sdh_sizes };

    ghost rising = { refl };
}
