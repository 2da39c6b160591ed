//! A text to rows.
ghost use Rattle.std.specs.Prelude.{◌≡◌, [], ◌≤◌, length, map, IfOk, IfErr};
ghost use Rattle.ring.specs.Limits.{desk};
ghost use Rattle.ring.specs.Sheet.{sents, demands};
ghost use Rattle.rows.specs.Columns.{unsent};
ghost use Rattle.lines.specs.Lines.{lines as lines_in};
ghost use Rattle.matrix.specs.Read.{square_lines, square_judged, matrix_of};
ghost use Rattle.matrix.specs.ReadInto.{read_to, IsMatrix, IsGiven};

use crate::fill::fill;
use crate::judge::{judge_count, judge_square};
use crate::line::{amounts_on, numbers_on, tabs};
use crate::numbers::Numbers;
use crate::square::Square;
use lines::Lines;
use reasons::{Refusal, check_size};
use rows::Columns;

/// How many nodes the ring of a matrix has: as many as the first line has fields. The size is judged once the line is known to be all numbers, so that it may
/// have any number of them.
fn nodes_of(text: &[u8]) -> Result<u32, Refusal>
    ensures goes_on { IfOk result (λ n.
        matrix_of desk text.now
        ≡ square_judged desk (square_lines desk n 1 n [] (lines_in text.now))) }
    ensures few { IfOk result (λ n. n ≤ desk.nodes) }
    ensures refused { IfErr result
        (λ r. matrix_of desk text.now ≡ Err r) }
{
    let first = Lines::of(text)?.due(1)?;
    let count = tabs(&first) + 1;
    numbers_on(&first, 1, count, &mut Numbers::new())?;
    let nodes = count as u32;
    check_size(nodes).map_err(|reason| Refusal {
        reason,
        line: 1,
        byte: 1,
    })?;
    Ok(nodes)
}

/// Reads the lines of a matrix into a square of its nodes. A missing line is the one after the last, and a line behind them is left over.
fn read_lines(lines: &mut Lines, square: &mut Square) -> Result<(), Refusal>
    ensures { let n = length square.old in
        read_to result square.new ≡ square_lines desk n 1 n [] lines.old }
{
    let nodes = square.nodes();
    let mut values = Numbers::new();
    for number in 1..nodes + 1 {
        let line = lines.due(number)?;
        amounts_on(&line, number, nodes as usize, &mut values)?;
        square.put(number, &values);
    }
    lines.end(nodes + 1)
}

/// Reads a matrix into columns: a row for each pair of nodes whose entry is above 0, in table order;
/// nothing of it is sent yet, and its way is the front. It answers how many nodes the ring has; of
/// its fibres a matrix says nothing. A text is refused by the first reason that holds, with its line
/// and byte; then the columns hold no row. Not made one with its caller, whose stack would hold the
/// square before the columns are made and after they are filled.
#[inline(never)]
pub fn read_matrix(text: &[u8], rows: &mut Columns) -> Result<u32, Refusal>
    ensures accepted { IfOk result (λ n. IsMatrix text.now n (demands (sents rows.new))) }
    ensures nothing_sent { rows.new ≡ map unsent (demands (sents rows.new)) }
    ensures refused { IfErr result (IsGiven text.now) }
    ensures empty { IfErr result (λ _. rows.new ≡ []) }
{
    rows.clear();
    let nodes = nodes_of(text)?;
    let mut square = Square::new(nodes);
    read_lines(&mut Lines::of(text)?, &mut square)?;
    judge_square(&square)?;
    judge_count(&square)?;
    fill(&square, rows);
    Ok(nodes)
}
