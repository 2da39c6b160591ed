//! A sheet's text, checked: it is read, and then what was read is judged.
ghost use Rattle.std.specs.Prelude.{◌≡◌, [], ◌≤◌, ◌+◌, IfErr};
ghost use Rattle.ring.specs.Limits.{desk};
ghost use Rattle.sheet.specs.ReadInto.{with_values};
ghost use Rattle.checker.specs.Check.{line_of, check};

use arrayvec::ArrayVec;
use judge::judge;
use reasons::{Finding, Reason, Refusal};
use ring::{Figures, LINKS, Link};
use rows::{Columns, Rows};
use sheet::read_sheet;

// The line on which a finding against the values of a sheet of so many rows and nodes stands, counted from 1: behind the R line stand the rows, the C line, a line for
// each link, and the Z line. 0 where the finding is against the sheet as a whole; other reasons than these are not found against values that were read.
#[tactic(auto, unfolding(crate::specs::Check::line_of))]
fn line_of(count: usize, nodes: u32, found: Finding) -> u32
    requires few { count ≤ desk.rows }
    requires links { nodes ≤ desk.nodes }
    requires near { found.place ≤ desk.rows + 1 }
    ensures { result ≡ line_of count nodes found.reason found.place }
{
    let count = count as u32;
    let place = found.place as u32;
    match found.reason {
        Reason::WrongSum | Reason::WrongWay => place + 1,
        Reason::WrongCut => count + 2,
        Reason::WrongLink => count + 2 + place,
        Reason::WrongLast => count + nodes + 3,
        _ => 0,
    }
}

/// Checks a sheet's text, whatever tool it comes from: its figures are answered, and its rows and its links, link k the k-th, are put into what is lent.
/// A refusal names the first reason that holds, with its line and its byte: those for which no sheet is read, and then 8 to 14, with byte 1 of their line, or,
/// against the sheet as a whole, with line 0 and byte 0. After it no row is left, and no link.
pub fn check_sheet(
    text: &[u8],
    rows: &mut Columns,
    links: &mut ArrayVec<Link, LINKS>,
) -> Result<Figures, Refusal>
    ensures value { with_values rows.new links.new.items result ≡ check desk text.now }
    ensures empty { IfErr result (λ _. (rows.new ≡ []) × (links.new.items ≡ [])) }
{
    let figures = read_sheet(text, rows, links)?;
    match judge(figures, rows, links.as_slice()) {
        Ok(()) => Ok(figures),
        Err(found) => {
            let line = line_of(rows.count(), figures.ring.nodes, found);
            links.clear();
            rows.clear();
            Err(Refusal {
                reason: found.reason,
                line,
                byte: line.min(1),
            })
        }
    }
}
