// The calls that read a text.
ghost use Rattle.std.specs.Prelude.{ℕ, ◌-◌, ◌≡◌, ◌≢◌, ◌≤◌, List, length, take};
ghost use Rattle.family.specs.Sizes.{family_of};
ghost use Rattle.ring.specs.Limits.{desk};
ghost use Rattle.ring.specs.LineSize.{IsFibres};
ghost use Rattle.ring.specs.Lists.{Each};
ghost use Rattle.engines.specs.declared.Engine.{Engine};
ghost use Rattle.engines.specs.declared.Engine.TheVariants.{Level, Lowered};
ghost use Rattle.table.specs.Table.{table_room};
ghost use Rattle.table.specs.Says.{Accepted as AcceptedTable};
ghost use Rattle.reasons.specs.Reasons.{number_of};
ghost use Rattle.reasons.specs.declared.reason.Reason.TheVariants.{TooManySplit};
ghost use Rattle.matrix.specs.Room.{matrix_room};
ghost use Rattle.matrix.specs.Says.{Accepted as AcceptedMatrix};
ghost use Rattle.sheet.specs.Range.{longest};
ghost use Rattle.sheet.specs.Says.{WellFormed};
ghost use Rattle.router.specs.Plans.{rule_D, best_choice};
ghost use Rattle.checker.specs.Says.{Accepted as AcceptedSheet};
ghost use Rattle.report.specs.Report.{most_bytes};
ghost use Rattle.report.specs.Checked.{report_room};
ghost use Rattle.ringkit.specs.Says.{Only};
ghost use Rattle.ringkit.specs.Texts.{FewSplit, OnRingUpTo};
ghost use Rattle.ringkit.specs.Promises.{PlanPromise, RewriteTablePromise, RewriteSheetPromise};
ghost use Rattle.ringkit.specs.Answers.{CheckPromise, PairPromise};
ghost use Rattle.ringkit.specs.Sheets.{FormedSheet, BestSheet, RoutedWell, NothingBelowSheet};
ghost use Rattle.ringkit.specs.Outcome.{Fills};
ghost use Rattle.ringkit.specs.TableCalls.{table_afresh, table_routed};
ghost use Rattle.matrix_calls.specs.Matrices.{SumsFit, ReadMatrixPromise, WriteMatrixPromise};
ghost use Rattle.matrix_calls.specs.MatrixCalls.{matrix_read, matrix_written};
ghost use Rattle.report_calls.specs.Reports.{ReportPromise, Joined, AllCounted};
ghost use Rattle.ringkit.specs.SheetCalls.{sheet_checked, sheet_parallel, sheet_afresh};
ghost use Rattle.table.specs.ReadTable.{table_of};
ghost use Rattle.ringkit.specs.Turning.{TurnPromise, TurnedWell};
ghost use Rattle.ringkit.specs.TurnCalls.{TurnsTable};
ghost use Rattle.ringkit.specs.Crossing.{CrossingPromise, WithinBound};
ghost use Rattle.ringkit.specs.CrossingCalls.{CrossingAsked};
ghost use Rattle.ringkit.specs.LeastPeak.{LeastPromise, SentWhole, NoneBelow, NoneLowerBy, WithinRuleD, WithinCrossed};
ghost use Rattle.ringkit_c.specs.Replies.{checked_reply, pair_reply, turn_reply, crossing_reply, least_reply, Told, Replies};

use crate::replies::{CrossingReply, LeastReply, PairReply, Reply, TurnReply};
use family::Family;
use ring::ROWS;

/// Reads a table and writes its values afresh: the same bytes. The reply has their number; or the table's first reason with its line and byte, or 15, and then
/// no byte of the buffer has changed.
#[unsafe(no_mangle)]
pub extern "C" fn ringkit_rewrite_table(table: &[u8], buffer: &mut [u8]) -> Reply
    ensures promise { Replies (RewriteTablePromise table.now buffer.old) buffer.new result }
    ensures only { Only (Replies (RewriteTablePromise table.now buffer.old)) buffer.new result }
    ensures value { Replies (Fills (table_afresh table.now) buffer.old) buffer.new result }
{
    Reply::from(ringkit::ringkit_rewrite_table(table, buffer))
}

/// Reads a matrix and writes its table, on a ring of so many fibres, of a family: 0 is SONET, any other number SDH. The reply has the table's length in bytes; or
/// 20, the matrix's first reason with its line and byte, or 15, and then no byte of the buffer has changed.
#[unsafe(no_mangle)]
pub extern "C" fn ringkit_read_matrix(
    matrix: &[u8],
    fibres: u32,
    family: u32,
    buffer: &mut [u8],
) -> Reply
    ensures promise { let family = family_of family in
        Replies (ReadMatrixPromise fibres family matrix.now buffer.old) buffer.new result }
    ensures only { let family = family_of family in
        Only (Replies (ReadMatrixPromise fibres family matrix.now buffer.old)) buffer.new
        result }
    ensures accepted { result.reason ≡ 0 → AcceptedTable desk (take result.length buffer.new) }
    ensures fits { result.length ≤ table_room desk }
    ensures room { IsFibres fibres → AcceptedMatrix desk matrix.now →
        table_room desk ≤ length buffer.old →
        result.reason ≡ 0 }
    ensures value { let family = family_of family in
        Replies (Fills (matrix_read fibres family matrix.now) buffer.old) buffer.new result }
{
    let family = Family::of(family);
    Reply::from(matrix_calls::ringkit_read_matrix(matrix, fibres, family, buffer))
}

/// Reads a table and writes its matrix. The reply has the matrix's length in bytes; or the table's first reason or 19, with line and byte, or 15, and then no
/// byte of the buffer has changed.
#[unsafe(no_mangle)]
pub extern "C" fn ringkit_write_matrix(table: &[u8], buffer: &mut [u8]) -> Reply
    ensures promise { Replies (WriteMatrixPromise table.now buffer.old) buffer.new result }
    ensures only { Only (Replies (WriteMatrixPromise table.now buffer.old)) buffer.new result }
    ensures accepted { result.reason ≡ 0 → AcceptedMatrix desk (take result.length buffer.new) }
    ensures fits { result.length ≤ matrix_room desk }
    ensures room { SumsFit table.now → matrix_room desk ≤ length buffer.old → result.reason ≡ 0 }
    ensures value { Replies (Fills (matrix_written table.now) buffer.old) buffer.new result }
{
    Reply::from(matrix_calls::ringkit_write_matrix(table, buffer))
}

/// Routes a table and writes its sheet. The reply has the sheet's length in bytes; or the table's first reason with its line and byte, or 15, and then no byte
/// of the buffer has changed.
#[unsafe(no_mangle)]
pub extern "C" fn ringkit_route(table: &[u8], buffer: &mut [u8]) -> Reply
    ensures promise { Replies (PlanPromise Level rule_D table.now buffer.old) buffer.new result }
    ensures only { Only (Replies (PlanPromise Level rule_D table.now buffer.old)) buffer.new
        result }
    ensures best { AcceptedTable desk table.now →
        Replies (RoutedWell Level rule_D table.now buffer.old) buffer.new result }
    ensures fits { result.length ≤ longest desk }
    ensures room { AcceptedTable desk table.now → longest desk ≤ length buffer.old →
        result.reason ≡ 0 }
    ensures value { Replies (Fills (table_routed Level table.now) buffer.old) buffer.new result }
{
    Reply::from(ringkit::ringkit_route(table, buffer))
}

/// The same with lowered rooms.
#[unsafe(no_mangle)]
pub extern "C" fn ringkit_route_lowered(table: &[u8], buffer: &mut [u8]) -> Reply
    ensures promise { Replies (PlanPromise Lowered rule_D table.now buffer.old) buffer.new result }
    ensures only { Only (Replies (PlanPromise Lowered rule_D table.now buffer.old)) buffer.new
        result }
    ensures best { AcceptedTable desk table.now →
        Replies (RoutedWell Lowered rule_D table.now buffer.old) buffer.new result }
    ensures minimal { NothingBelowSheet rule_D table.now }
    ensures fits { result.length ≤ longest desk }
    ensures room { AcceptedTable desk table.now → longest desk ≤ length buffer.old →
        result.reason ≡ 0 }
    ensures value { Replies (Fills (table_routed Lowered table.now) buffer.old) buffer.new result }
{
    Reply::from(ringkit::ringkit_route_lowered(table, buffer))
}

/// Routes a table by the best choice among its split rows and writes its sheet. The reply has the sheet's length in bytes; or the table's first reason with its line
/// and byte, or 23, where more than 16 rows are split, or 15, and then no byte of the buffer has changed.
#[unsafe(no_mangle)]
pub extern "C" fn ringkit_route_best(table: &[u8], buffer: &mut [u8]) -> Reply
    ensures promise { Replies (PlanPromise Level best_choice table.now buffer.old) buffer.new
        result }
    ensures only { Only (Replies (PlanPromise Level best_choice table.now buffer.old)) buffer.new
        result }
    ensures best { FewSplit Level table.now →
        Replies (RoutedWell Level best_choice table.now buffer.old) buffer.new result }
    ensures fits { result.length ≤ longest desk }
    ensures room { FewSplit Level table.now → longest desk ≤ length buffer.old →
        result.reason ≡ 0 }
    ensures few { OnRingUpTo 33 table.now → result.reason ≢ number_of TooManySplit }
{
    Reply::from(ringkit::ringkit_route_best(table, buffer))
}

/// The same with lowered rooms.
#[unsafe(no_mangle)]
pub extern "C" fn ringkit_route_lowered_best(table: &[u8], buffer: &mut [u8]) -> Reply
    ensures promise { Replies (PlanPromise Lowered best_choice table.now buffer.old) buffer.new
        result }
    ensures only { Only (Replies (PlanPromise Lowered best_choice table.now buffer.old)) buffer.new
        result }
    ensures best { FewSplit Lowered table.now →
        Replies (RoutedWell Lowered best_choice table.now buffer.old) buffer.new result }
    ensures minimal { NothingBelowSheet best_choice table.now }
    ensures fits { result.length ≤ longest desk }
    ensures room { FewSplit Lowered table.now → longest desk ≤ length buffer.old →
        result.reason ≡ 0 }
    ensures few { OnRingUpTo 33 table.now → result.reason ≢ number_of TooManySplit }
{
    Reply::from(ringkit::ringkit_route_lowered_best(table, buffer))
}

/// Checks a sheet. The reply is 0 where it is accepted; or its first reason with its line and byte.
#[unsafe(no_mangle)]
pub extern "C" fn ringkit_check(sheet: &[u8]) -> Reply
    ensures promise { Told checked_reply (CheckPromise sheet.now) result }
    ensures only { (other : Reply) → Told checked_reply (CheckPromise sheet.now) other →
        other ≡ result }
    ensures formed { WellFormed desk sheet.now →
        Told checked_reply (FormedSheet sheet.now) result }
    ensures best { result.reason ≡ 0 → BestSheet sheet.now }
    ensures value { result ≡ checked_reply (sheet_checked sheet.now) }
{
    Reply::from(ringkit::ringkit_check(sheet))
}

/// The first pair of split rows of a sheet that are parallel, by their places, counted from 1, both 0 where there is none; or the sheet's first reason with its
/// line and byte.
#[unsafe(no_mangle)]
pub extern "C" fn ringkit_parallel(sheet: &[u8]) -> PairReply
    ensures promise { Told pair_reply (PairPromise sheet.now) result }
    ensures only { (other : PairReply) → Told pair_reply (PairPromise sheet.now) other →
        other ≡ result }
    ensures value { result ≡ pair_reply (sheet_parallel sheet.now) }
{
    PairReply::from(ringkit::ringkit_parallel(sheet))
}

/// Reads a sheet and writes its values afresh: the same bytes. The reply has their number; or the sheet's first reason with its line and byte, or 15, and then
/// no byte of the buffer has changed.
#[unsafe(no_mangle)]
pub extern "C" fn ringkit_rewrite_sheet(sheet: &[u8], buffer: &mut [u8]) -> Reply
    ensures promise { Replies (RewriteSheetPromise sheet.now buffer.old) buffer.new result }
    ensures only { Only (Replies (RewriteSheetPromise sheet.now buffer.old)) buffer.new result }
    ensures value { Replies (Fills (sheet_afresh sheet.now) buffer.old) buffer.new result }
{
    Reply::from(ringkit::ringkit_rewrite_sheet(sheet, buffer))
}

/// Turns a table's rows one at a time, and puts their ways at their places, 0 for F and 1 for B. The reply has the peak in units, the link that the start
/// avoided, the number of turns and that of rows; or the table's first reason with its line and byte, and then no byte of the ways has changed.
#[unsafe(no_mangle)]
pub extern "C" fn ringkit_turn(table: &[u8], ways: &mut [u8; ROWS]) -> TurnReply
    ensures promise { Told turn_reply (TurnPromise table.now ways.old ways.new) result }
    ensures only { Only (λ new. Told turn_reply (TurnPromise table.now ways.old new)) ways.new
        result }
    ensures best { AcceptedTable desk table.now →
        Told turn_reply (TurnedWell table.now ways.new) result }
    ensures value { let read = table_of desk table.now in
        Told turn_reply (TurnsTable read ways.old ways.new) result }
{
    TurnReply::from(ringkit::ringkit_turn(table, ways))
}

/// Whether all rows of a table with amounts above 0 cross. The reply has kind 1 where they do and are at most 16, with the bound, in halves, of the unsplit peak of the best choice; kind 2 where two are parallel, with
/// the places of the first two, counted from 1 among all rows; kind 3 where they all cross and are more than 16; or the table's first reason with its line and byte.
#[unsafe(no_mangle)]
pub extern "C" fn ringkit_crossing(table: &[u8]) -> CrossingReply
    ensures promise { Told crossing_reply (CrossingPromise table.now) result }
    ensures only { (other : CrossingReply) → Told crossing_reply (CrossingPromise table.now) other →
        other ≡ result }
    ensures bound { result.kind ≡ 1 →
        (engine : Engine) → WithinBound engine result.bound table.now }
    ensures value { let read = table_of desk table.now in
        Told crossing_reply (CrossingAsked read) result }
{
    CrossingReply::from(ringkit::ringkit_crossing(table))
}

/// Says the least of five rules of a table, and puts the ways of its rows at their places, 0 for F and 1 for B. The reply has the least peak and the floor in units, the
/// number of the rule that has the peak, and how many rows there are; or the table's first reason with its line and byte, and then no byte of the ways has changed.
#[unsafe(no_mangle)]
pub extern "C" fn ringkit_least(table: &[u8], ways: &mut [u8; ROWS]) -> LeastReply
    ensures promise { Told least_reply (LeastPromise table.now ways.old ways.new) result }
    ensures only { Only (λ new. Told least_reply (LeastPromise table.now ways.old new)) ways.new
        result }
    ensures accepted { AcceptedTable desk table.now → result.reason ≡ 0 }
    ensures sent { result.reason ≡ 0 →
        SentWhole table.now (take result.rows ways.new) result.peak }
    ensures floor { result.reason ≡ 0 → NoneBelow table.now result.floor }
    ensures proved_best { result.reason ≡ 0 → result.peak ≡ result.floor →
        NoneBelow table.now result.peak }
    ensures within { result.reason ≡ 0 →
        NoneLowerBy table.now result.peak (result.peak - result.floor) }
    ensures bound { result.reason ≡ 0 → WithinRuleD table.now result.peak }
    ensures crossed { result.reason ≡ 0 → WithinCrossed table.now result.peak }
{
    LeastReply::from(ringkit::ringkit_least(table, ways))
}

/// Makes a report over a text of many plans and writes its lines. The reply has its length in bytes; or 24, where the text is over 65,536 bytes, or 15, and then no byte
/// of the buffer has changed.
#[unsafe(no_mangle)]
pub extern "C" fn ringkit_report(sheets: &[u8], buffer: &mut [u8]) -> Reply
    ensures promise { Replies (ReportPromise sheets.now buffer.old) buffer.new result }
    ensures only { Only (Replies (ReportPromise sheets.now buffer.old)) buffer.new result }
    ensures counted { (plans : List (List ℕ)) → Joined plans sheets.now →
        Each (AcceptedSheet desk) plans →
        Replies (AllCounted sheets.now (length plans) buffer.old) buffer.new result }
    ensures fits { result.length ≤ report_room }
    ensures room { length sheets.now ≤ most_bytes → report_room ≤ length buffer.old →
        result.reason ≡ 0 }
{
    Reply::from(report_calls::ringkit_report(sheets, buffer))
}
