// Rows, one after the other.
ghost use Rattle.std.specs.Prelude.{◌≡◌, drop};

use crate::Rows;
use ring::Routed;

/// The rows that are left to be seen.
#[derive(Drop)]
pub struct RowsLeft<'a, R> {
    rows: &'a R,
    seen: usize,
}

impl<'a, R: Rows> Iterator for RowsLeft<'a, R> {
    ghost use Rattle.std.specs.Prelude.{drop};
    ghost use Rattle.std.specs.Iterator.{item_count, YieldsFirst};

    type Item = Routed;

    ghost next_gives = { YieldsFirst (λ e. drop e.seen (R.rows e.rows.now)) };

    ghost remaining = { item_count (λ e. drop e.seen (R.rows e.rows.now)) };

    #[tactic(auto, using(crate::proofs::Places::row_then))]
    fn next(&mut self) -> Option<Routed> {
        if self.rows.count() <= self.seen {
            return None;
        }
        let row = self.rows.row(self.seen);
        self.seen += 1;
        Some(row)
    }
}

/// All rows, from the first on.
pub fn each<R: Rows>(rows: &R) -> RowsLeft<'_, R>
    ensures { drop result.seen (R.rows result.rows.now) ≡ R.rows rows.now }
{
    RowsLeft { rows, seen: 0 }
}
