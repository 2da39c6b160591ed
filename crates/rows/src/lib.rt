#![tactic(auto, using(crate::proofs::Places::length_rows))]
// Rows as they are routed, by their places: the calls above speak of the list, whatever holds it.
mod columns;
mod left;
mod sheet_row;

ghost use Rattle.std.specs.Prelude.{◌≡◌, ◌<◌, List, Some, length, slice_get, slice_set};
ghost use Rattle.ring.specs.declared.types.Routed.{Routed};

pub use columns::Columns;
pub use left::{RowsLeft, each};
use ring::Routed;
pub use sheet_row::SheetRow;

/// What can be read row by row.
pub trait Rows {
    // The rows, in their order.
    ghost rows: { Self → List Routed };

    /// How many rows there are.
    fn count(&self) -> usize
        ensures { result ≡ length (rows self.now) };

    /// The row at a place from 0 on, copied out.
    fn row(&self, k: usize) -> Routed
        requires { k < length (rows self.now) }
        ensures { slice_get (rows self.now) k ≡ Some result };
}

/// What can be changed row by row.
pub trait RowsMut: Rows {
    /// Another row at a place from 0 on, where one stands.
    fn put(&mut self, k: usize, row: Routed)
        requires { k < length (Self.rows self.old) }
        ensures { Self.rows self.new ≡ slice_set (Self.rows self.old) k row };
}
