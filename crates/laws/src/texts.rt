// What texts are, and what holds of all sheets.
ghost use Rattle.ring.specs.Limits.{desk, old};
ghost use Rattle.table.specs.Spelled.{LimitsSpelled};
ghost use Rattle.lines.specs.Laws.{LinesAre};
ghost use Rattle.matrix.specs.Laws.{RowsOfMatrixIs};
ghost use Rattle.sheet.specs.Laws.{SameSheet};
ghost use Rattle.checker.specs.Cases.{CasesHold};
ghost use Rattle.turns.specs.Cases.{CasesHold as TurnedCasesHold};
ghost use Rattle.turns.specs.InOrder.{FallingIs};
ghost use Rattle.checker.specs.Laws.{TrueAccepted, PlanAccepted, NoLowerPeak, FormedIs, JudgedInRange};
ghost use Rattle.laws.specs.Texts.{SpellingIs, OneLine, FaultyIs, OneRingLine, RingFaultyIs, WellFormedIs, AcceptedMatrixIs, ReasonsApart, ReasonsFromOne};
ghost use Rattle.laws.specs.Cases.{CasesPromised};
ghost use Rattle.laws.specs.Digits.{OfJudged, WrittenAccepted, RoomsFit, ShortNodes, ShortAmounts, ShortHalves, ShortLoads, FitsText};

/// Numbers are spelled in one way each: by 1 to 8 digits with no leading zero but 0 itself. A node
/// and an amount within the limits can be spelled so, and within those before by 1 to 7 digits.
pub fn numbers_spelled()
    ensures one { SpellingIs }
    ensures limits { LimitsSpelled desk }
    ensures before { LimitsSpelled old }
{}

/// A line of a shape says its values alone, and a text has a first faulty byte exactly where it is no line of the shape.
pub fn lines_of_a_shape()
    ensures one { OneLine }
    ensures faulty { FaultyIs }
{}

/// An R line, of either family, says one ring, and a text has a first faulty byte exactly where it is no R line.
pub fn ring_lines()
    ensures one { OneRingLine }
    ensures faulty { RingFaultyIs }
{}

/// The lines of a text are these and no others: one behind the other they are the text, each ends with LF and has no other, and what is behind the last LF has none.
pub fn lines_of_a_text()
    ensures { LinesAre }
{}

/// A text is well-formed exactly where it is a sheet of values in range, and exactly where it would not be refused if reasons 8 to 14 were never given.
pub fn well_formed_sheet()
    ensures is { WellFormedIs }
    ensures never { FormedIs desk }
{}

/// A text is an accepted matrix exactly where it is the matrix of lines in range.
pub fn accepted_matrix()
    ensures { AcceptedMatrixIs }
{}

/// The rows of a matrix are those of a table, at most one for each pair and none of amount 0, whose matrix it is; and no other rows are.
pub fn rows_of_a_matrix()
    ensures { RowsOfMatrixIs desk }
{}

/// Two sheets in range that are written the same are the same.
pub fn same_sheet()
    ensures { SameSheet desk }
{}

/// A true sheet in range is accepted.
pub fn true_sheet_accepted()
    ensures { TrueAccepted desk }
{}

/// Values that judging accepts are in range, so that their sheet, written, is accepted.
pub fn judged_in_range()
    ensures range { JudgedInRange }
    ensures accepted { OfJudged WrittenAccepted }
{}

/// The figures of values that judging accepts have few digits: nodes 2, amounts 4, fronts and backs 5, loads 8; so each such sheet is no longer than the
/// longest, and that fits a text, as do the rooms of a table and of a matrix.
pub fn digits_of_figures()
    ensures nodes { OfJudged ShortNodes }
    ensures amounts { OfJudged ShortAmounts }
    ensures halves { OfJudged ShortHalves }
    ensures loads { OfJudged ShortLoads }
    ensures fits { OfJudged FitsText }
    ensures rooms { RoomsFit }
{}

/// The plan of an accepted table is an accepted sheet.
pub fn plan_accepted()
    ensures { PlanAccepted }
{}

/// No division of the demands of an accepted sheet, however fine, has a lower peak.
pub fn no_lower_peak()
    ensures { NoLowerPeak desk }
{}

/// The listed cases hold.
pub fn cases_hold()
    ensures { CasesHold }
{}

/// So do those of tables whose rows are turned one at a time.
pub fn turned_cases_hold()
    ensures { TurnedCasesHold }
{}

/// A list put in falling order has the same members, and no later one is the larger.
pub fn falling_order()
    ensures { FallingIs }
{}

/// The listed sheets hold in the words of what the calls promise: each plan is due to its table and accepted, each refusal is given.
pub fn cases_as_promised()
    ensures { CasesPromised }
{}

/// Each reason has a number of its own, and none is 0: so what C is told by numbers is told as by names.
pub fn reason_numbers()
    ensures apart { ReasonsApart }
    ensures from_one { ReasonsFromOne }
{}
