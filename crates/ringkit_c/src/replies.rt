//! C's structs of numbers, each with what makes it of a call's answer.
ghost use Rattle.std.specs.Prelude.{◌≡◌, ◌≤◌, ◌+◌, IfErr};
ghost use Rattle.ring.specs.Limits.{desk};
ghost use Rattle.ringkit_c.specs.Replies.{reply_of, checked_reply, pair_reply, judge_reply, turn_reply, crossing_reply, least_reply};
ghost use Rattle.ringkit_c.specs.Working.{work_reply, row_reply};

use crossing::{Crossing, Pair};
use reasons::{Finding, Reason, Refusal};
use ring::Demand;
use ringkit::{LeastTable, TurnedTable};
use work::Placed;

/// The answer of a call that fills a buffer, or that checks a sheet. Reason 0 is success. On a refusal every field but reason, line and byte is 0; line and
/// byte are counted from 1, and are 0 of a refusal that names no line.
#[repr(C)]
#[derive(Default, Drop)]
pub struct Reply {
    pub reason: u32,
    pub line: u32,
    pub byte: u32,
    pub length: usize,
}

/// The reply of a call that fills a buffer: how many bytes it wrote, or why it wrote none.
impl From<Result<usize, Refusal>> for Reply {
    ghost from_gives = { λ answer reply. reply ≡ reply_of answer };

    #[tactic(auto, unfolding(crate::specs::Replies::reply_of))]
    fn from(answer: Result<usize, Refusal>) -> Reply {
        match answer {
            Ok(length) => Reply {
                length,
                ..Reply::default()
            },
            Err(refusal) => Reply {
                reason: refusal.reason.number(),
                line: refusal.line,
                byte: refusal.byte,
                ..Reply::default()
            },
        }
    }
}

/// The reply of checking, which writes nothing.
impl From<Result<(), Refusal>> for Reply {
    ghost from_gives = { λ answer reply. reply ≡ checked_reply answer };

    #[tactic(auto, unfolding(crate::specs::Replies::checked_reply))]
    fn from(answer: Result<(), Refusal>) -> Reply {
        Reply::from(answer.map(|()| 0))
    }
}

/// The answer to the parallel question. Reason 0 is success: two rows by their places, counted from 1; both are 0 where there is no pair, and on a refusal.
#[repr(C)]
#[derive(Default, Drop)]
pub struct PairReply {
    pub reason: u32,
    pub line: u32,
    pub byte: u32,
    pub first: usize,
    pub second: usize,
}

impl From<Result<Pair, Refusal>> for PairReply {
    ghost from_gives = { λ answer reply. reply ≡ pair_reply answer };

    #[tactic(auto, unfolding(crate::specs::Replies::pair_reply))]
    fn from(answer: Result<Pair, Refusal>) -> PairReply {
        let pair = match answer {
            Ok(pair) => pair,
            Err(refusal) => {
                return PairReply {
                    reason: refusal.reason.number(),
                    line: refusal.line,
                    byte: refusal.byte,
                    ..PairReply::default()
                };
            }
        };
        let Pair::Are(first, second) = pair else {
            return PairReply::default();
        };
        PairReply {
            first,
            second,
            ..PairReply::default()
        }
    }
}

/// The answer of judging. Reason 0 is success. The place is that of the row that is at fault, or of the link, counted from 1; it is 0 where neither is, and on success.
#[repr(C)]
#[derive(Default, Drop)]
pub struct JudgeReply {
    pub reason: u32,
    pub place: u32,
}

impl JudgeReply {
    /// The reply of judging, whose places are few: only so does a place fit. It is no `From`, whose trait
    /// asks nothing of a value.
    #[tactic(auto, unfolding(crate::specs::Replies::judge_reply))]
    pub fn of(answer: Result<(), Finding>) -> Self
        requires { IfErr answer (λ f. f.place ≤ desk.rows + 1) }
        ensures { result ≡ judge_reply answer }
    {
        match answer {
            Ok(()) => JudgeReply::default(),
            Err(finding) => JudgeReply {
                reason: finding.reason.number(),
                place: finding.place as u32,
            },
        }
    }
}

/// The answer of turning a table's rows. Reason 0 is success: the peak in units, the link that the start avoided, how many turns it took and how many rows
/// there are; all four are 0 on a refusal.
#[repr(C)]
#[derive(Default, Drop)]
pub struct TurnReply {
    pub reason: u32,
    pub line: u32,
    pub byte: u32,
    pub peak: u32,
    pub link: u32,
    pub turns: u32,
    pub rows: usize,
}

impl From<Result<TurnedTable, Refusal>> for TurnReply {
    ghost from_gives = { λ answer reply. reply ≡ turn_reply answer };

    #[tactic(auto, unfolding(crate::specs::Replies::turn_reply))]
    fn from(answer: Result<TurnedTable, Refusal>) -> TurnReply {
        match answer {
            Ok(table) => TurnReply {
                peak: table.turned.peak,
                link: table.turned.link,
                turns: table.turned.turns,
                rows: table.rows,
                ..TurnReply::default()
            },
            Err(refusal) => TurnReply {
                reason: refusal.reason.number(),
                line: refusal.line,
                byte: refusal.byte,
                ..TurnReply::default()
            },
        }
    }
}

/// Of the answer whether all rows with amounts cross: they do, and there is a bound.
const ALL_CROSS: u32 = 1;

/// Two of them are parallel.
const PARALLEL: u32 = 2;

/// They all cross, and are too many.
const MANY: u32 = 3;

/// The answer whether all rows with amounts cross. Reason 0 is success: its kind, 1 to 3, with the bound in halves where that is 1, and two rows by their places, counted from 1, where it is 2.
/// What a kind does not have is 0; on a refusal all four are 0.
#[repr(C)]
#[derive(Default, Drop)]
pub struct CrossingReply {
    pub reason: u32,
    pub line: u32,
    pub byte: u32,
    pub kind: u32,
    pub bound: u32,
    pub first: usize,
    pub second: usize,
}

impl From<Result<Crossing, Refusal>> for CrossingReply {
    ghost from_gives = { λ answer reply. reply ≡ crossing_reply answer };

    #[tactic(auto, unfolding(crate::specs::Replies::crossing_reply))]
    fn from(answer: Result<Crossing, Refusal>) -> CrossingReply {
        match answer {
            Ok(Crossing::All { bound }) => CrossingReply {
                kind: ALL_CROSS,
                bound,
                ..CrossingReply::default()
            },
            Ok(Crossing::Parallel { first, second }) => CrossingReply {
                kind: PARALLEL,
                first,
                second,
                ..CrossingReply::default()
            },
            Ok(Crossing::Many) => CrossingReply {
                kind: MANY,
                ..CrossingReply::default()
            },
            Err(refusal) => CrossingReply {
                reason: refusal.reason.number(),
                line: refusal.line,
                byte: refusal.byte,
                ..CrossingReply::default()
            },
        }
    }
}

/// The answer of the call that says the least of five rules. Reason 0 is success: the least peak and the floor in units, the number of the rule that has the peak, 1 to
/// 5, and how many rows there are; all four are 0 on a refusal.
#[repr(C)]
#[derive(Default, Drop)]
pub struct LeastReply {
    pub reason: u32,
    pub line: u32,
    pub byte: u32,
    pub peak: u32,
    pub floor: u32,
    pub rule: u32,
    pub rows: usize,
}

impl From<Result<LeastTable, Refusal>> for LeastReply {
    ghost from_gives = { λ answer reply. reply ≡ least_reply answer };

    #[tactic(auto, unfolding(crate::specs::Replies::least_reply))]
    fn from(answer: Result<LeastTable, Refusal>) -> LeastReply {
        match answer {
            Ok(table) => LeastReply {
                peak: table.least.peak,
                floor: table.least.floor,
                rule: table.least.rule.number(),
                rows: table.rows,
                ..LeastReply::default()
            },
            Err(refusal) => LeastReply {
                reason: refusal.reason.number(),
                line: refusal.line,
                byte: refusal.byte,
                ..LeastReply::default()
            },
        }
    }
}

/// The answer of a call that alters a working table. Reason 0 is success: the place that the call names, counted from 1 (0 of a start), and the largest cut
/// from then on, its across number in units. On a refusal all but the reason is 0. The line is always 0.
#[repr(C)]
#[derive(Default, Drop)]
pub struct WorkReply {
    pub reason: u32,
    pub line: u32,
    pub place: u32,
    pub g: u32,
    pub h: u32,
    pub across: u32,
}

/// The reply of a call: what it placed, or why it is refused.
impl From<Result<Placed, Reason>> for WorkReply {
    ghost from_gives = { λ answer reply. reply ≡ work_reply answer };

    #[tactic(auto, unfolding(crate::specs::Working::work_reply))]
    fn from(answer: Result<Placed, Reason>) -> WorkReply {
        match answer {
            Ok(placed) => WorkReply {
                place: placed.place,
                g: placed.cut.g,
                h: placed.cut.h,
                across: placed.cut.across,
                ..WorkReply::default()
            },
            Err(reason) => WorkReply {
                reason: reason.number(),
                ..WorkReply::default()
            },
        }
    }
}

/// The row at a place, its amount in units. Reason 0 is success; else all but the reason is 0. The line is always 0.
#[repr(C)]
#[derive(Default, Drop)]
pub struct RowReply {
    pub reason: u32,
    pub line: u32,
    pub first: u32,
    pub second: u32,
    pub amount: u32,
}

/// The reply of the call that reads a row.
impl From<Result<Demand, Reason>> for RowReply {
    ghost from_gives = { λ answer reply. reply ≡ row_reply answer };

    #[tactic(auto, unfolding(crate::specs::Working::row_reply))]
    fn from(answer: Result<Demand, Reason>) -> RowReply {
        match answer {
            Ok(demand) => RowReply {
                first: demand.first,
                second: demand.second,
                amount: demand.amount,
                ..RowReply::default()
            },
            Err(reason) => RowReply {
                reason: reason.number(),
                ..RowReply::default()
            },
        }
    }
}
