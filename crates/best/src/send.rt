//! The split rows, and how rows go by a choice.
ghost use Rattle.std.specs.Prelude.{◌≡◌, ◌≤◌, ◌<◌, true, IfOk, IfErr};
ghost use Rattle.ring.specs.Routing.{is_split};
ghost use Rattle.ring.specs.Sheet.{sents};
ghost use Rattle.best.specs.Best.{splits, most_split};
ghost use Rattle.best.specs.Choices.{choose, split_rows};
ghost use Rattle.best.specs.Sends.{NextWay};

use crate::{MOST_SPLIT, TooManySplit};
use arrayvec::ArrayVec;
use ring::{Demand, Routed, Sent, Way, is_split};
use rows::{Rows, RowsMut, each};

/// The demands of the split rows.
#[tactic(auto, using(crate::proofs::SendSteps::split_on, crate::proofs::SendSteps::split_past, crate::proofs::SendSteps::split_full, crate::proofs::SendSteps::split_end), unfolding(crate::specs::Choices::split_rows))]
pub(crate) fn split_rows<R: Rows>(rows: &R) -> Result<ArrayVec<Demand, MOST_SPLIT>, TooManySplit>
    ensures few { IfOk result (λ split. split.items ≡ split_rows (sents (R.rows rows.now))) }
    ensures many { IfErr result (λ refused. most_split < splits (sents (R.rows rows.now))) }
{
    let mut split = ArrayVec::new();
    for row in each(rows) {
        if is_split(row.sent) {
            if split.is_full() {
                return Err(TooManySplit);
            }
            split.push(row.sent.demand);
        }
    }
    Ok(split)
}

// How many split rows are left, and what is left of the choice.
#[derive(Drop)]
struct Left {
    split: usize,
    choice: u32,
}

impl Left {
    // The way of the next row, and what is left behind it.
    fn next_way(&mut self, sent: Sent) -> Way
        requires some { is_split sent ≡ true → 1 ≤ self.old.split }
        requires few { self.old.split ≤ most_split }
        ensures { NextWay sent self.old self.new result }
    {
        if !is_split(sent) {
            return sent.whole_way();
        }
        self.split -= 1;
        let bit: u32 = 1 << self.split;
        if self.choice < bit {
            return Way::Front;
        }
        self.choice -= bit;
        Way::Back
    }
}

/// Each row goes by a choice: of so many split rows each has a bit, the first row the highest; 0 is front, 1 is back. A row that is not split goes as rule D says.
pub(crate) fn send_by<R: RowsMut>(rows: &mut R, split: usize, choice: u32)
    requires split { split ≡ splits (sents (R.rows rows.old)) }
    requires few { split ≤ most_split }
    ensures { R.rows rows.new ≡ choose choice (sents (R.rows rows.old)) }
{
    let mut left = Left { split, choice };
    for k in 0..rows.count() {
        let sent = rows.row(k).sent;
        let way = left.next_way(sent);
        rows.put(k, Routed { sent, way });
    }
}
