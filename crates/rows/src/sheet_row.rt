// A row of a sheet as C holds it, six numbers, and a lent slice of them.
ghost use Rattle.std.specs.Prelude.{◌≡◌, map};
ghost use Rattle.rows.specs.SheetRow.{routed_row};

use crate::Rows;
use ring::{Demand, Routed, Sent, Way};

/// A row as it is routed: its two nodes; its amount in units; what it sends over its front and over its back, in halves of a unit; and its way, which is F where the
/// number is 0 and B where it is any other.
#[derive(Clone, Copy)]
#[repr(C)]
pub struct SheetRow {
    pub first: u32,
    pub second: u32,
    pub amount: u32,
    pub front: u32,
    pub back: u32,
    pub way: u32,
}

/// The same row, with its way told by name.
impl From<SheetRow> for Routed {
    ghost from_gives = { λ row r. r ≡ routed_row row };

    fn from(row: SheetRow) -> Routed {
        Routed {
            sent: Sent {
                demand: Demand {
                    first: row.first,
                    second: row.second,
                    amount: row.amount,
                },
                front: row.front,
                back: row.back,
            },
            way: Way::of(row.way),
        }
    }
}

impl<'a> Rows for &'a [SheetRow] {
    ghost rows = { λ rs. map routed_row rs.now };

    fn count(&self) -> usize {
        self.len()
    }

    fn row(&self, k: usize) -> Routed {
        Routed::from(self[k])
    }
}
