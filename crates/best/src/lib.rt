#![tactic(auto)]
//! The best choice among the split rows: of all ways of sending them whole the one with the lowest peak.
mod send; // the split rows, and how rows go by a choice
mod tries; // all choices, one after the other

ghost use Rattle.std.specs.Prelude.{◌≡◌, ◌≤◌, ◌<◌, IfOk, IfErr};
ghost use Rattle.ring.specs.Sheet.{sents};
ghost use Rattle.weight.specs.Rows.{Fit};
ghost use Rattle.best.specs.Best.{splits, most_split, IsBest};

use rows::RowsMut;
use send::{send_by, split_rows};
use tries::{Tried, try_all, unsplit_loads};
use weight::weigh;

/// At most so many split rows are chosen for: they have 65,536 choices.
pub const MOST_SPLIT: usize = 16;

/// More rows are split than are chosen for.
#[derive(Clone, Copy)]
pub struct TooManySplit;

/// Rows go as the best choice sends them: of all ways of sending the split rows one with the lowest unsplit peak; among these one with the fewest rows back; and of these the one that goes front at the first
/// difference. A row that is not split goes as rule D says. Refused, with the rows as they were, where more than 16 rows are split. A ring has at most 64 nodes.
pub fn send_best<R: RowsMut>(nodes: u32, rows: &mut R) -> Result<(), TooManySplit>
    requires { Fit nodes (R.rows rows.old) }
    ensures few { IfOk result (λ done. splits (sents (R.rows rows.old)) ≤ most_split) }
    ensures best { IfOk result (λ done. IsBest nodes (sents (R.rows rows.old)) (R.rows rows.new)) }
    ensures many { IfErr result (λ refused. most_split < splits (sents (R.rows rows.old))) }
    ensures same { IfErr result (λ refused. R.rows rows.new ≡ R.rows rows.old) }
{
    let split = split_rows(rows)?;
    send_by(rows, split.len(), 0);
    let weight = weigh(nodes, rows);
    let loads = unsplit_loads(&weight.links);
    let first = Tried {
        peak: weight.unsplit_peak,
        choice: 0,
    };
    let best = try_all(split.as_slice(), &loads, nodes as usize, 0, first);
    send_by(rows, split.len(), best.choice);
    Ok(())
}
