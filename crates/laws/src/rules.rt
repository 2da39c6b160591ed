// What the four rules give for the rows of every table, what they speak of, and the line sizes.
ghost use Rattle.std.specs.Prelude.{◌≡◌, [], ◌∷◌};
ghost use Rattle.ring.specs.Rules.{places, pairs_of_places};
ghost use Rattle.laws.specs.Rules.{FrontLeads, BackLeads, DisjointIs, EnclosesIs, ParallelIs, ParallelEither, SameAreParallel};
ghost use Rattle.laws.specs.Rules.{SplitIs, PeakIsAbove, PeakIsLoad, EitherOrder, OneLink, CutBounds};
ghost use Rattle.laws.specs.Rules.{CutIsBest, CutIsOne};
ghost use Rattle.laws.specs.Rules.{RowsAreSent, SendingIsOne, SentPeakIsM, OneIsSplit};
ghost use Rattle.laws.specs.Rules.{MoveIs, MoveKeeps, EarlierIsOuter, MovesOncePerPair, MovedIsOne, RowsAreUntangled, UntangledDivides, UntangledPeakIsM};
ghost use Rattle.laws.specs.Rules.{SplitRowsRise, LargestSplitIs, RowsAreDirected, DirectionsAreOne, DirectedPeak};
ghost use Rattle.laws.specs.Rules.{BestIsThere, BestIsOne, RuleDChooses, FewAreSplit};
ghost use Rattle.laws.specs.Rules.{SizeOfRising, SizeOfFamily, FamilyAnswers};
ghost use Rattle.laws.specs.Papers.{AcrossIsD, UnsplitIsL, SplitIsStar, AllAreThePapers};

/// The front of a row leads from its first node to its second, the back from its second on round to its first.
pub fn fronts_and_backs()
    ensures front { FrontLeads }
    ensures back { BackLeads }
{}

/// Rows are parallel exactly where their fronts are disjoint or one lies inside the other.
pub fn parallel_rows()
    ensures disjoint { DisjointIs }
    ensures encloses { EnclosesIs }
    ensures parallel { ParallelIs }
    ensures either { ParallelEither }
    ensures same_nodes { SameAreParallel }
{}

/// A row is split where both its amounts are above 0; a peak is the largest load.
pub fn loads_and_peaks()
    ensures split { SplitIs }
    ensures above { PeakIsAbove }
    ensures load { PeakIsLoad }
{}

/// Across numbers, and the bound that each cut puts on every division of the demands.
pub fn across_numbers()
    ensures either { EitherOrder }
    ensures one_link { OneLink }
    ensures bounds { CutBounds }
{}

/// Rule A, the cut: it is the first of the largest.
pub fn largest_cut_rule()
    ensures best { CutIsBest }
    ensures only { CutIsOne }
{}

/// Rule B, sending: the split peak is M, and of the rows of the same two nodes one at most is split.
pub fn sending_rule()
    ensures sends { RowsAreSent }
    ensures only { SendingIsOne }
    ensures peak { SentPeakIsM }
    ensures one_split { OneIsSplit }
{}

/// Rule C, parallel pairs: one move at each pair of rows, in order. No load rises, and no two split rows are parallel afterwards.
pub fn parallel_pairs_rule()
    ensures moves { MoveIs }
    ensures keeps { MoveKeeps }
    ensures earlier { EarlierIsOuter }
    ensures order { MovesOncePerPair }
    ensures only { MovedIsOne }
    ensures untangled { RowsAreUntangled }
    ensures demands { UntangledDivides }
    ensures peak { UntangledPeakIsM }
{}

/// The pairs of places of four rows, the first before the second, by first and then by second.
pub fn places_of_four()
    ensures { pairs_of_places 4 ≡ places 1 2 ∷ places 1 3 ∷ places 1 4
        ∷ places 2 3 ∷ places 2 4 ∷ places 3 4 ∷ [] }
{}

/// Rule D, unsplit directions: the unsplit peak stays within its bound.
pub fn directions_rule()
    ensures rise { SplitRowsRise }
    ensures largest { LargestSplitIs }
    ensures directed { RowsAreDirected }
    ensures only { DirectionsAreOne }
    ensures peak { DirectedPeak }
{}

/// The best choice: each split routing has one, and one only; rule D's answer is a choice; and at most half as many rows are split as the ring has links.
pub fn best_choice_rule()
    ensures there { BestIsThere }
    ensures only { BestIsOne }
    ensures chooses { RuleDChooses }
    ensures few { FewAreSplit }
{}

/// The line size is the smallest that carries the peak, on two fibres twice the peak; 0 if none is.
pub fn line_sizes()
    ensures rising { SizeOfRising }
    ensures family { SizeOfFamily }
    ensures answers { FamilyAnswers }
{}

/// Across numbers and loads are those of the paper on ring loading.
pub fn paper_loads_and_cuts()
    ensures across { AcrossIsD }
    ensures unsplit { UnsplitIsL }
    ensures split { SplitIsStar }
    ensures all { AllAreThePapers }
{}
