// Laws over several calls.
ghost use Rattle.ringkit.specs.Back.{TableThereAndBack};
ghost use Rattle.matrix_calls.specs.Matrices.{MatrixToTableToMatrix, TableToMatrixToTable};
ghost use Rattle.ringkit.specs.WorkCalls.{RoutedAsNamed};
ghost use Rattle.laws.specs.Calls.{SheetThereAndBack, RoutedChecked, RoutedJudged, RoutedCounted, CrossedRouted};
ghost use Rattle.laws.specs.Calls.{LeastUpToTurned, LeastUpToRouted, LeastComesFrom};

/// A table there and back: an accepted table is read and written as the same bytes, values in range as a text of these values only.
pub fn table_there_and_back()
    ensures { TableThereAndBack }
{}

/// The matrix of the table that was made of a matrix is that matrix.
pub fn matrix_to_table_to_matrix()
    ensures { MatrixToTableToMatrix }
{}

/// The table made of a table's matrix is that table, where it has at most one row for a pair and none of amount 0.
pub fn table_to_matrix_to_table()
    ensures { TableToMatrixToTable }
{}

/// An accepted sheet, read and written afresh with room, is the same bytes.
pub fn sheet_there_and_back()
    ensures { SheetThereAndBack }
{}

/// A working table, written out and routed by a rule that takes it, has the cut that the last accepted answer named.
pub fn routed_as_named()
    ensures { RoutedAsNamed }
{}

/// What routing wrote for an accepted table that its rule takes, with room, is a sheet to which checking says yes.
pub fn routed_checked()
    ensures { RoutedChecked }
{}

/// What routing wrote for an accepted table that its rule takes, with room, is a sheet to whose values judging says yes.
pub fn routed_judged()
    ensures { RoutedJudged }
{}

/// A report over sheets that calls of routing wrote, one behind the other and within its limit, counts all of them as accepted.
pub fn routed_counted()
    ensures { RoutedCounted }
{}

/// Where all rows with amounts are said to cross within a bound, routing by the best choice, with either engine, is not refused by 23, and each sheet that it writes has twice its unsplit peak at most the bound.
pub fn crossed_routed()
    ensures { CrossedRouted }
{}

/// The peak of the least of five rules is at most that of turning and of each sheet that routing writes for the same table, and is that of the call of its rule.
pub fn least_of_calls()
    ensures turned { LeastUpToTurned }
    ensures routed { LeastUpToRouted }
    ensures comes_from { LeastComesFrom }
{}
