//! The calls that read a text: a table, a matrix or a sheet.
ghost use Rattle.std.specs.Prelude.{ℕ, ◌≡◌, ◌≤◌, List, length, Result, Ok, IsOk, IfOk, IfErr, ◌≢◌};
ghost use Rattle.ring.specs.Limits.{desk};
ghost use Rattle.ring.specs.Sheet.{sents, demands};
ghost use Rattle.engines.specs.Engine.{plan_by};
ghost use Rattle.engines.specs.declared.Engine.TheVariants.{Level, Lowered};
ghost use Rattle.table.specs.Table.{InRange};
ghost use Rattle.table.specs.Says.{Accepted as AcceptedTable};
ghost use Rattle.reasons.specs.declared.reason.Reason.TheVariants.{TooManySplit};
ghost use Rattle.sheet.specs.WriteSheet.{write_sheet};
ghost use Rattle.sheet.specs.Range.{longest};
ghost use Rattle.sheet.specs.Says.{WellFormed};
ghost use Rattle.router.specs.Plans.{rule_D, best_choice};
ghost use Rattle.ringkit.specs.Says.{CallSays, Only};
ghost use Rattle.ringkit.specs.Texts.{TableOf, PlanDue, PlanGiven, FewSplit, OnRingUpTo};
ghost use Rattle.ringkit.specs.Promises.{PlanPromise, RewriteTablePromise, RewriteSheetPromise};
ghost use Rattle.ringkit.specs.Answers.{yes, Checked, Asked, CheckPromise, PairPromise};
ghost use Rattle.ringkit.specs.Sheets.{FormedSheet, BestSheet, RoutedWell, NothingBelowSheet};
ghost use Rattle.ringkit.specs.Outcome.{Fills};
ghost use Rattle.ringkit.specs.TableCalls.{table_afresh, table_routed};
ghost use Rattle.ringkit.specs.SheetCalls.{sheet_checked, sheet_parallel, sheet_afresh};

use crate::{put_sheet, put_table};
use arrayvec::ArrayVec;
use crossing::Pair;
use engines::Engine;
use reasons::{Reason, Refusal};
use ring::Ring;
use rows::Columns;

// Routes a table's rows by an engine and rule D, and writes their sheet.
fn put_route(
    buffer: &mut [u8],
    engine: Engine,
    ring: Ring,
    rows: &mut Columns,
) -> Result<usize, Refusal>
    requires { InRange desk ring (demands (sents rows.old)) }
    ensures { let sheet = plan_by engine ring (demands (sents rows.old)) in
        Fills (Ok (write_sheet sheet)) buffer.old buffer.new result }
{
    let plan = router::route(engine, ring, rows);
    let links = &plan.links[..ring.nodes as usize];
    put_sheet(buffer, plan.figures, rows, links)
}

// Routes a table's rows by an engine and the best choice, and writes their sheet; or 23, where too many are split.
fn put_best(
    buffer: &mut [u8],
    engine: Engine,
    ring: Ring,
    rows: &mut Columns,
) -> Result<usize, Refusal>
    requires { InRange desk ring (demands (sents rows.old)) }
    ensures { (table : List ℕ) → TableOf table ring (demands (sents rows.old)) →
        CallSays (PlanDue engine best_choice table) (PlanGiven engine best_choice table)
        buffer.old buffer.new result }
{
    let Ok(best) = router::route_best(engine, ring, rows) else {
        return Err(Refusal::whole(Reason::TooManySplit));
    };
    let links = &best.links[..ring.nodes as usize];
    put_sheet(buffer, best.figures, rows, links)
}

// Each call of several clauses has its body in a function of its own: then all of them speak of its one result, however it came about.

fn rewrite_table(table: &[u8], buffer: &mut [u8]) -> Result<usize, Refusal>
    ensures { Fills (table_afresh table.now) buffer.old buffer.new result }
{
    let mut rows = Columns::new();
    let ring = table::read_table(table, &mut rows)?;
    put_table(buffer, ring, &rows)
}

/// Reads a table and writes its values afresh, at the start of the buffer: the same bytes as the text, so as many bytes of room suffice. Answers how many they are.
/// Else the buffer stays as it was, and the refusal is the table's first reason, with its line and byte; or 15, where the buffer is too short.
pub fn ringkit_rewrite_table(table: &[u8], buffer: &mut [u8]) -> Result<usize, Refusal>
    ensures promise { RewriteTablePromise table.now buffer.old buffer.new result }
    ensures only { Only (RewriteTablePromise table.now buffer.old) buffer.new result }
    ensures value { Fills (table_afresh table.now) buffer.old buffer.new result }
{
    rewrite_table(table, buffer)
}

fn route(engine: Engine, table: &[u8], buffer: &mut [u8]) -> Result<usize, Refusal>
    ensures { Fills (table_routed engine table.now) buffer.old buffer.new result }
{
    let mut rows = Columns::new();
    let ring = table::read_table(table, &mut rows)?;
    put_route(buffer, engine, ring, &mut rows)
}

/// Routes a table by rules A to D and writes its sheet. Answers the sheet's length, at most `sheet_bytes()`. Else the buffer stays as it was, and the refusal
/// is the table's first reason, with its line and byte; or 15.
pub fn ringkit_route(table: &[u8], buffer: &mut [u8]) -> Result<usize, Refusal>
    ensures promise { PlanPromise Level rule_D table.now buffer.old buffer.new result }
    ensures only { Only (PlanPromise Level rule_D table.now buffer.old) buffer.new result }
    ensures best { AcceptedTable desk table.now →
        RoutedWell Level rule_D table.now buffer.old buffer.new result }
    ensures fits { IfOk result (λ length. length ≤ longest desk) }
    ensures room { AcceptedTable desk table.now → longest desk ≤ length buffer.old → IsOk result }
    ensures value { Fills (table_routed Level table.now) buffer.old buffer.new result }
{
    route(Engine::Level, table, buffer)
}

/// The same with lowered rooms: rows are sent so that no split routing is at most as full on every link and less full on one. The split peak is that of
/// `ringkit_route`.
pub fn ringkit_route_lowered(table: &[u8], buffer: &mut [u8]) -> Result<usize, Refusal>
    ensures promise { PlanPromise Lowered rule_D table.now buffer.old buffer.new result }
    ensures only { Only (PlanPromise Lowered rule_D table.now buffer.old) buffer.new result }
    ensures best { AcceptedTable desk table.now →
        RoutedWell Lowered rule_D table.now buffer.old buffer.new result }
    ensures minimal { NothingBelowSheet rule_D table.now }
    ensures fits { IfOk result (λ length. length ≤ longest desk) }
    ensures room { AcceptedTable desk table.now → longest desk ≤ length buffer.old → IsOk result }
    ensures value { Fills (table_routed Lowered table.now) buffer.old buffer.new result }
{
    route(Engine::Lowered, table, buffer)
}

fn route_best(engine: Engine, table: &[u8], buffer: &mut [u8]) -> Result<usize, Refusal>
    ensures { let table = table.now in
        CallSays (PlanDue engine best_choice table) (PlanGiven engine best_choice table)
        buffer.old buffer.new result }
{
    let mut rows = Columns::new();
    let ring = table::read_table(table, &mut rows)?;
    put_best(buffer, engine, ring, &mut rows)
}

/// Routes a table by rules A to C and the best choice among the split rows, and writes its sheet: no way of sending these rows whole has a lower peak. Answers the
/// sheet's length, at most `sheet_bytes()`. Else the buffer stays as it was, and the refusal is the table's first reason, with its line and byte; or 23, where more
/// than 16 rows are left split, which on up to 33 offices is never so; or 15.
pub fn ringkit_route_best(table: &[u8], buffer: &mut [u8]) -> Result<usize, Refusal>
    ensures promise { PlanPromise Level best_choice table.now buffer.old buffer.new result }
    ensures only { Only (PlanPromise Level best_choice table.now buffer.old) buffer.new result }
    ensures best { FewSplit Level table.now →
        RoutedWell Level best_choice table.now buffer.old buffer.new result }
    ensures fits { IfOk result (λ length. length ≤ longest desk) }
    ensures room { FewSplit Level table.now → longest desk ≤ length buffer.old → IsOk result }
    ensures few { OnRingUpTo 33 table.now → IfErr result (λ why. why.reason ≢ TooManySplit) }
{
    route_best(Engine::Level, table, buffer)
}

/// The same with lowered rooms.
pub fn ringkit_route_lowered_best(table: &[u8], buffer: &mut [u8]) -> Result<usize, Refusal>
    ensures promise { PlanPromise Lowered best_choice table.now buffer.old buffer.new result }
    ensures only { Only (PlanPromise Lowered best_choice table.now buffer.old) buffer.new result }
    ensures best { FewSplit Lowered table.now →
        RoutedWell Lowered best_choice table.now buffer.old buffer.new result }
    ensures minimal { NothingBelowSheet best_choice table.now }
    ensures fits { IfOk result (λ length. length ≤ longest desk) }
    ensures room { FewSplit Lowered table.now → longest desk ≤ length buffer.old → IsOk result }
    ensures few { OnRingUpTo 33 table.now → IfErr result (λ why. why.reason ≢ TooManySplit) }
{
    route_best(Engine::Lowered, table, buffer)
}

fn check(sheet: &[u8]) -> Result<(), Refusal>
    ensures { result ≡ sheet_checked sheet.now }
{
    let mut rows = Columns::new();
    let mut links = ArrayVec::new();
    checker::check_sheet(sheet, &mut rows, &mut links)?;
    Ok(())
}

/// Checks a sheet, whatever tool it comes from: accepted, or its first reason, with its line and byte.
pub fn ringkit_check(sheet: &[u8]) -> Result<(), Refusal>
    ensures promise { CheckPromise sheet.now result }
    ensures only { (other : Checked) → CheckPromise sheet.now other → other ≡ result }
    ensures formed { WellFormed desk sheet.now → FormedSheet sheet.now result }
    ensures best { result ≡ yes → BestSheet sheet.now }
    ensures value { result ≡ sheet_checked sheet.now }
{
    check(sheet)
}

fn first_parallel(sheet: &[u8]) -> Result<Pair, Refusal>
    ensures { result ≡ sheet_parallel sheet.now }
{
    let mut rows = Columns::new();
    let mut links = ArrayVec::new();
    checker::check_sheet(sheet, &mut rows, &mut links)?;
    Ok(crossing::first_pair(&rows))
}

/// The first pair of split rows of a sheet that are parallel, by their places, counted from 1, or that there is none; or why the sheet is refused, as
/// `ringkit_check` says it.
pub fn ringkit_parallel(sheet: &[u8]) -> Result<Pair, Refusal>
    ensures promise { PairPromise sheet.now result }
    ensures only { (other : Asked) → PairPromise sheet.now other → other ≡ result }
    ensures value { result ≡ sheet_parallel sheet.now }
{
    first_parallel(sheet)
}

fn rewrite_sheet(sheet: &[u8], buffer: &mut [u8]) -> Result<usize, Refusal>
    ensures { Fills (sheet_afresh sheet.now) buffer.old buffer.new result }
{
    let mut rows = Columns::new();
    let mut links = ArrayVec::new();
    let figures = checker::check_sheet(sheet, &mut rows, &mut links)?;
    put_sheet(buffer, figures, &rows, links.as_slice())
}

/// Reads a sheet and writes its values afresh, at the start of the buffer: the same bytes as the text, so as many bytes of room suffice. Answers how many they
/// are. Else the buffer stays as it was, and the refusal is the sheet's first reason, as `ringkit_check` says it; or 15.
pub fn ringkit_rewrite_sheet(sheet: &[u8], buffer: &mut [u8]) -> Result<usize, Refusal>
    ensures promise { RewriteSheetPromise sheet.now buffer.old buffer.new result }
    ensures only { Only (RewriteSheetPromise sheet.now buffer.old) buffer.new result }
    ensures value { Fills (sheet_afresh sheet.now) buffer.old buffer.new result }
{
    rewrite_sheet(sheet, buffer)
}
