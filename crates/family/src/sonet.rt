//! The SONET family.
ghost use Rattle.std.specs.Prelude.{refl};
ghost use Rattle.family.specs.Sizes.{sonet_sizes, sonet_unit};

use crate::LineSizes;

/// SONET: units of STS-1.
#[derive(Drop)]
pub struct Sonet;

impl LineSizes for Sonet {
    const UNIT: [u8; 5] = *b"STS-1";

    ghost UNIT = { sonet_unit };

    const SIZES: [u32; 5] = [3, 12, 48, 192, 768];

    ghost SIZES = { sonet_sizes };

    ghost rising = { refl };
}
