//! A text to a sheet: its R line, its D lines, its C line, its L lines and its Z line, in this order, and nothing behind them. Nothing is judged by its figures.
ghost use Rattle.std.specs.Prelude.{◌≡◌, ◌+◌, ◌≤◌, ◌<◌, List, [], ◌∷◌, ◌++◌, length, IfOk, IfErr, Ok};
ghost use Rattle.ring.specs.Limits.{desk};
ghost use Rattle.ring.specs.Sheet.{sheet_in};
ghost use Rattle.ring.specs.declared.types.Ring.{Ring as RingOf};
ghost use Rattle.ring.specs.declared.types.Routed.{Routed as RoutedOf};
ghost use Rattle.ring.specs.declared.types.Cut.{Cut as CutOf};
ghost use Rattle.ring.specs.declared.types.Link.{Link as LinkOf};
ghost use Rattle.text.specs.ReadLine.{read_line, Reading};
ghost use Rattle.text.specs.Shapes.{cut_shape};
ghost use Rattle.reasons.specs.AndThen.{and_then};
ghost use Rattle.sheet.specs.Says.{rows as behind_rows, links as behind_links};
ghost use Rattle.sheet.specs.Read.{row_by, cut_by, read_from, read_sheet};
ghost use Rattle.sheet.specs.ReadInto.{with_values};

use arrayvec::ArrayVec;
use lines::{Line, Lines, refusal_on};
use reasons::{Refusal, check_next};
use ring::{Cut, Demand, Figures, LINKS, Link, Ring, Routed, Sent, Way};
use rows::{Columns, Rows};
use table::ring_on;
use text::{CUT, LAST, LINK, SHEET_ROW};

// The row of a D line by its values, behind the rows before it. Apart from `read_rows` for its proof: what is found against the row is known here alone.
#[tactic(auto, using(crate::proofs::ReadSteps::has_room), unfolding(crate::specs::Read::row_by, lines::specs::OnLine::passed))]
fn routed_on(number: u32, values: &[u32; 7], ring: Ring, rows: &Columns) -> Result<Routed, Refusal>
    ensures value { result ≡ row_by desk ring rows.now number values.now }
    ensures room { IfOk result (λ row. length rows.now < desk.rows) }
{
    let [_, first, second, amount, front, back, way] = *values;
    let row = Demand {
        first,
        second,
        amount,
    };
    check_next(ring.nodes, rows, row).map_err(|fault| refusal_on(
        number, &SHEET_ROW, values, fault,
    ))?;
    Ok(Routed {
        sent: Sent {
            demand: row,
            front,
            back,
        },
        way: Way::of(way),
    })
}

// The cut of a C line. It is no D line: at the place `no_row` of it no D line goes on, and its fault is the later of the two.
#[tactic(auto, unfolding(crate::specs::Read::cut_by))]
fn cut_on(number: u32, line: &Line, no_row: usize) -> Result<Cut, Refusal>
    requires byte_fits { no_row ≤ desk.bytes }
    ensures { result ≡ cut_by number no_row (read_line desk.digits cut_shape line.now) }
{
    let [_, g, h, across] = line
        .read(&CUT)
        .map_err(|no_cut| Refusal::misshapen(number, no_row.max(no_cut)))?;
    Ok(Cut { g, h, across })
}

// The D lines, from line 2 on, and the C line that ends them.
fn read_rows(lines: &mut Lines, ring: Ring, rows: &mut Columns) -> Result<Cut, Refusal>
    ensures { and_then result (λ cut.
        read_from desk (behind_links ring rows.new cut []) (length rows.new + 3) lines.new)
        ≡ read_from desk (behind_rows ring []) 2 lines.old }
{
    rows.clear();
    while let Some(line) = lines.next_line() {
        let number = rows.count() as u32 + 2;
        match line.read(&SHEET_ROW) {
            Ok(values) => {
                let row = routed_on(number, &values, ring, rows)?;
                rows.push(row);
            }
            Err(no_row) => return cut_on(number, &line, no_row),
        }
    }
    Err(Refusal::misshapen(rows.count() as u32 + 2, 0))
}

// The L lines, of which the first has this number: one for each link.
fn read_links(
    lines: &mut Lines,
    number: u32,
    ring: Ring,
    links: &mut ArrayVec<Link, LINKS>,
) -> Result<(), Refusal>
    requires links_fit { ring.nodes ≤ desk.nodes }
    requires line_fits { number ≤ desk.rows + 3 }
    ensures leads { (rs : List RoutedOf) (c : CutOf) →
        and_then result (λ _. read_from desk (behind_links ring rs c links.new.items)
        (number + ring.nodes) lines.new)
        ≡ read_from desk (behind_links ring rs c []) number lines.old }
    ensures all { IfOk result (λ _. ring.nodes ≤ length links.new.items) }
{
    links.clear();
    for line in number..number + ring.nodes {
        let [_, link, split, unsplit] = lines.due(line)?.values(line, &LINK)?;
        links.push(Link {
            link,
            split,
            unsplit,
        });
    }
    Ok(())
}

// The Z line, which has this number, behind the ring and the cut that were read; nothing may follow it.
fn read_last(lines: &mut Lines, number: u32, ring: Ring, cut: Cut) -> Result<Figures, Refusal>
    requires line_fits { number ≤ desk.bytes }
    ensures { (rs : List RoutedOf) (ls : List LinkOf) → ring.nodes ≤ length ls →
        and_then result (λ x. Ok (sheet_in x rs ls))
        ≡ read_from desk (behind_links ring rs cut ls) number lines.old }
{
    let [_, unsplit_peak, size] = lines.due(number)?.values(number, &LAST)?;
    lines.end(number + 1)?;
    Ok(Figures {
        ring,
        cut,
        unsplit_peak,
        size,
    })
}

// The figures, and beside them the rows and the links as far as they go. Apart from `read_sheet` so that what a refusal leaves is cleared in one place.
fn read_parts(
    text: &[u8],
    rows: &mut Columns,
    links: &mut ArrayVec<Link, LINKS>,
) -> Result<Figures, Refusal>
    ensures { with_values rows.new links.new.items result ≡ read_sheet desk text.now }
{
    let mut lines = Lines::of(text)?;
    let ring = ring_on(&lines.due(1)?)?;
    let cut = read_rows(&mut lines, ring, rows)?;
    let number = rows.count() as u32 + 3;
    read_links(&mut lines, number, ring, links)?;
    read_last(&mut lines, number + ring.nodes, ring, cut)
}

/// Reads a sheet: its figures are answered; its rows and its links are put into what is lent, over what stood there before: the k-th link is what the k-th L line says,
/// whatever number that gives its link. What the figures say is not judged.
/// A refusal names the first reason that holds, its line and its byte; then no row is left, and no link.
pub fn read_sheet(
    text: &[u8],
    rows: &mut Columns,
    links: &mut ArrayVec<Link, LINKS>,
) -> Result<Figures, Refusal>
    ensures value { with_values rows.new links.new.items result ≡ read_sheet desk text.now }
    ensures empty { IfErr result (λ _. (rows.new ≡ []) × (links.new.items ≡ [])) }
{
    let read = read_parts(text, rows, links);
    if read.is_err() {
        links.clear();
        rows.clear()
    }
    read
}
