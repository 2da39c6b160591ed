//! Laws, each the contract of a function that does nothing.
ghost use Rattle.engines.specs.Cases.{CasesHold};
ghost use Rattle.engines.specs.Laws.{RoomsAreLowered, LoweringIsOne};
ghost use Rattle.engines.specs.Laws.{EngineSends, EnginePeakIsM, EngineSplitsOne, EnginePlanIsTrue, EnginePlanIsOf, LevelAsBefore};
ghost use Rattle.engines.specs.Laws.{LoadsAreRooms, NothingBelow, LevelNotMinimal, ChangesNothing};

/// Lowered rooms are the largest differences, and none other are so.
pub fn lowered_rooms()
    ensures largest { RoomsAreLowered }
    ensures only { LoweringIsOne }
{}

/// What either engine gives.
pub fn either_engine()
    ensures sends { EngineSends }
    ensures peak { EnginePeakIsM }
    ensures one_split { EngineSplitsOne }
    ensures plan { EnginePlanIsTrue }
    ensures demands { EnginePlanIsOf }
    ensures as_before { LevelAsBefore }
{}

/// What lowered rooms give.
pub fn lowered_loads()
    ensures loads { LoadsAreRooms }
    ensures minimal { NothingBelow }
    ensures level { LevelNotMinimal }
    ensures nothing { ChangesNothing }
    ensures cases { CasesHold }
{}
