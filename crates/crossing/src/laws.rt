//! Laws, each the contract of a function that does nothing.
ghost use Rattle.crossing.specs.Laws.{HalvedWhereAllCross, SplitAreThoseWithAmounts, BestWithinBound, NotOfRuleD, ThreeCross, OneAnswer};

/// What holds of every table whose rows with amounts all cross, by either engine: half of each row goes either way, so that the split rows are those with amounts; and the best choice keeps to
/// the bound, which rule D need not. And of rows there is one answer.
pub fn everything_crosses()
    ensures halved { HalvedWhereAllCross }
    ensures split { SplitAreThoseWithAmounts }
    ensures bound { BestWithinBound }
    ensures rule_d { NotOfRuleD }
    ensures three { ThreeCross }
    ensures one { OneAnswer }
{}
