//! Laws, each the contract of a function that does nothing.
ghost use Rattle.report.specs.PiecesAre.{PiecesAre};
ghost use Rattle.report.specs.Worst.{WorstIs};
ghost use Rattle.report.specs.Totals.{FamiliesApart};
ghost use Rattle.report.specs.Checked.{AllAccepted, CountedOnce, OneOutcome, OneReport, ShortReport};
ghost use Rattle.report.specs.DamagedReports.{ReportsDiffer};
ghost use Rattle.report.specs.Anywhere.{DamageAnywhere};
ghost use Rattle.report.specs.Damage.{DamageStays, PiecesStand};

/// The pieces of a text are what four properties make them, and no other list is.
pub fn pieces_of_a_text()
    ensures { PiecesAre }
{}

/// The worst ratio of a family is that of its first plan than which none of its plans is worse, and no other ratio is.
pub fn worst_ratio()
    ensures { WorstIs }
{}

/// Damage to a piece, or before the first R, that makes no line that starts with R and breaks none, leaves the other pieces and what they give; each piece may
/// be damaged so; damage to a run of bytes in which no such line begins stays in one piece; and what the other pieces give is the same in the reports before and
/// behind damage.
pub fn damage_to_a_piece()
    ensures stays { DamageStays }
    ensures pieces { PiecesStand }
    ensures anywhere { DamageAnywhere }
    ensures reports { ReportsDiffer }
{}

/// What is no plan of a family adds nothing to its totals.
pub fn families_apart()
    ensures { FamiliesApart }
{}

/// Every piece gives one thing, and every text has one report, in which each piece is counted once; of a text within the limit its lines have at most 82 bytes; and of
/// accepted sheets, one behind the other, all are counted as accepted.
pub fn report_of_a_text()
    ensures outcome { OneOutcome }
    ensures one { OneReport }
    ensures once { CountedOnce }
    ensures short { ShortReport }
    ensures counted { AllAccepted }
{}
