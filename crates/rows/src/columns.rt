//! Rows in columns, from place 0 on: an array for each number, in which nothing moves.
ghost use Rattle.std.specs.Prelude.{
  ◌≡◌,
  ◌<◌,
  ◌≤◌,
  List,
  [],
  ◌∷◌,
  ◌++◌,
  Some,
  length,
  slice_get,
  slice_set,
};
ghost use Rattle.ring.specs.Limits.{desk};
ghost use Rattle.rows.specs.Columns.{unsent, row_written};

use crate::{Rows, RowsMut};
use ring::{Demand, ROWS, Routed, Sent, Way};
use std::marker::Model;

// An array for each number of rows, by their places.
#[derive(Drop)]
struct Arrays {
    first: [u32; ROWS],
    second: [u32; ROWS],
    amount: [u32; ROWS],
    front: [u32; ROWS],
    back: [u32; ROWS],
    way: [Way; ROWS],
}

impl Arrays {
    // The numbers of a row are put at a place.
    fn write(&mut self, k: usize, row: Routed)
        requires { k < desk.rows }
        ensures { self.new ≡ row_written self.old k row }
    {
        self.first[k] = row.sent.demand.first;
        self.second[k] = row.sent.demand.second;
        self.amount[k] = row.sent.demand.amount;
        self.front[k] = row.sent.front;
        self.back[k] = row.sent.back;
        self.way[k] = row.way;
    }
}

/// At most 1,024 rows. Some 21 KB: make it where it stays, and lend it.
#[derive(Drop)]
pub struct Columns {
    count: usize,
    arrays: Arrays,
}

// A caller sees the list of rows.
impl Model for Columns {
    ghost use Rattle.std.specs.Prelude.{List};
    ghost use Rattle.ring.specs.declared.types.Routed.{Routed};

    ghost Value = { List Routed };

    ghost use Rattle.rows.specs.Columns.{rows_of_columns, Sized};

    ghost view = { rows_of_columns };

    ghost invariant = { Sized };
}

impl Columns {
    /// No row.
    pub fn new() -> Self
        ensures { result ≡ [] }
    {
        Columns {
            count: 0,
            arrays: Arrays {
                first: [0; ROWS],
                second: [0; ROWS],
                amount: [0; ROWS],
                front: [0; ROWS],
                back: [0; ROWS],
                way: [Way::Front; ROWS],
            },
        }
    }

    /// No row again. The arrays stay as they are: what stands behind the count is never read.
    pub fn clear(&mut self)
        ensures { self.new ≡ [] }
    {
        self.count = 0;
    }

    /// One row more, behind the last, of at most 1,024.
    pub fn push(&mut self, row: Routed)
        requires { length self.old < desk.rows }
        ensures { self.new ≡ self.old ++ row ∷ [] }
    {
        self.arrays.write(self.count, row);
        self.count += 1;
    }

    /// One demand more, behind the last row, of at most 1,024 rows: nothing is sent yet, and its way is the front.
    pub fn push_unsent(&mut self, row: Demand)
        requires { length self.old < desk.rows }
        ensures { self.new ≡ self.old ++ unsent row ∷ [] }
    {
        self.push(Routed {
            sent: Sent {
                demand: row,
                front: 0,
                back: 0,
            },
            way: Way::Front,
        });
    }
}

impl Rows for Columns {
    ghost rows = { λ c. c };

    /// How many rows there are: at most 1,024.
    fn count(&self) -> usize
        ensures is { result ≡ length self.now }
        ensures few { length self.now ≤ desk.rows }
    {
        self.count
    }

    fn row(&self, k: usize) -> Routed {
        // opens the value, so that the sizes of the columns are known
        let _ = &self.count;
        Routed {
            sent: Sent {
                demand: Demand {
                    first: self.arrays.first[k],
                    second: self.arrays.second[k],
                    amount: self.arrays.amount[k],
                },
                front: self.arrays.front[k],
                back: self.arrays.back[k],
            },
            way: self.arrays.way[k],
        }
    }
}

impl RowsMut for Columns {
    fn put(&mut self, k: usize, row: Routed) {
        self.arrays.write(k, row);
    }
}
