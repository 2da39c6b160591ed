// What the desk of the limits before these answers: 32 nodes, 496 rows, numbers of 7 digits, no M.
ghost use Rattle.laws.specs.Old.{SameBytes, BeyondOld, OldAccepted, OldRefused};

/// A table that it accepts is routed to the same bytes. What it writes is said by the lines of a sheet
/// and by how their numbers are spelled, and not by the writer.
pub fn same_bytes()
    ensures { SameBytes }
{}

/// An accepted sheet of an SDH ring it refuses by 2 on line 1, at the byte where LF should stand. One of a SONET ring beyond its limits it refuses by 3, at byte 3
/// of line 1, where that has too many nodes, and else by 16, at byte 1 of the first line too many; within them it accepts it. All else that it answers, but for 2,
/// 3 and 16, is answered alike.
pub fn old_desk()
    ensures beyond { BeyondOld }
    ensures accepted { OldAccepted }
    ensures refused { OldRefused }
{}
