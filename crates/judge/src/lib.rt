#![tactic(auto)]
// A sheet that is held as values, judged by its own rows: nothing is found, or the first finding in their order. Values may be any numbers, rows and links any many.
mod cut; // the cut and its across number
mod last; // the peaks, the size and the bound
mod link; // the loads of each link
mod row; // row by row

ghost use Rattle.std.specs.Prelude.{◌≡◌, ◌↔◌, ◌+◌, ◌≤◌, Result, IsOk, IfErr};
ghost use Rattle.ring.specs.Limits.{desk};
ghost use Rattle.ring.specs.Sheet.{sheet_in};
ghost use Rattle.ring.specs.True.{TrueSheet};
ghost use Rattle.reasons.specs.Findings.{First};
ghost use Rattle.reasons.specs.RowFindings.{ring_findings};
ghost use Rattle.judge.specs.Findings.{findings, Fits};

use crate::cut::judge_cut;
use crate::last::judge_last;
use crate::link::judge_links;
use crate::row::judge_rows;
use reasons::{Finding, check_ring};
use ring::{Figures, Link, Ring};
use rows::Rows;
use weight::{largest_split, weigh};

// How many nodes the ring has, and then its fibres.
fn judge_ring(ring: Ring) -> Result<(), Finding>
    ensures { First (ring_findings desk ring) result }
{
    check_ring(ring).map_err(|fault| Finding::at(fault.reason, 0))
}

// Part by part, as far as the first that is at fault. Apart from `judge` for its proof alone: five ways out with one clause each, and all other clauses follow
// from that one.
fn judge_parts<R: Rows>(figures: Figures, rows: &R, links: &[Link]) -> Result<(), Finding>
    ensures { let x = sheet_in figures (R.rows rows.now) links.now in
        First (findings desk x) result }
{
    let nodes = figures.ring.nodes;
    judge_ring(figures.ring)?;
    judge_rows(nodes, rows)?;
    judge_cut(nodes, rows, figures.cut)?;
    let weight = weigh(nodes, rows);
    judge_links(nodes, &weight, links)?;
    judge_last(figures, &weight, largest_split(rows))
}

/// Judges a sheet by its values, however its rows are held: accepted, or the first reason that holds, with its place, counted from 1: that of the row for 4 to 9 and
/// 16, and that of the link for 11; 0 for all else, and for 11 where there are not as many links as the ring has. Amounts, the cut's `across`, a link's
/// `unsplit` and the figure `unsplit_peak` are in units; a row's `front` and `back` and a link's `split` are in halves. Each may be any number, and there may be any
/// number of rows and links.
pub fn judge<R: Rows>(figures: Figures, rows: &R, links: &[Link]) -> Result<(), Finding>
    // The first of the findings that holds, with its place.
    ensures first { let x = sheet_in figures (R.rows rows.now) links.now in
        First (findings desk x) result }
    // It accepts exactly the sheets that keep to the limits and are true.
    ensures accepts { let x = sheet_in figures (R.rows rows.now) links.now in
        IsOk result ↔ (Fits desk x × TrueSheet x) }
    // Any other answer that is the first is this one.
    ensures only { let x = sheet_in figures (R.rows rows.now) links.now in
        (other : Result Unit Finding) → First (findings desk x) other → other ≡ result }
    // The place is at most that of the first row behind all that a sheet can have.
    ensures place { IfErr result (λ f. f.place ≤ desk.rows + 1) }
{
    judge_parts(figures, rows, links)
}
