// The call that judges a sheet by its values.
ghost use Rattle.std.specs.Prelude.{◌≡◌};
ghost use Rattle.ring.specs.Limits.{desk};
ghost use Rattle.reasons.specs.Findings.{First};
ghost use Rattle.judge.specs.Findings.{findings};
ghost use Rattle.ringkit.specs.Judging.{JudgePromise};
ghost use Rattle.ringkit_c.specs.Replies.{ring_told, sheet_lent, judge_reply, Told};

use crate::replies::JudgeReply;
use crate::ring_told::ring_told;
use ring::{Cut, Figures, Link};
use rows::SheetRow;

/// Judges a sheet by its values. The family is SONET where its number is 0 and SDH where it is any other. A row's front and back and a link's split load are in
/// halves, all else in units. The reply is 0 where they are accepted; or the first reason, with the place of the row or the link, counted from 1.
#[unsafe(no_mangle)]
pub extern "C" fn ringkit_judge(
    rows: &[SheetRow],
    n: u32,
    fibres: u32,
    family: u32,
    g: u32,
    h: u32,
    across: u32,
    links: &[Link],
    peak: u32,
    size: u32,
) -> JudgeReply
    ensures promise { let ring = ring_told n fibres family in
        let x = sheet_lent rows.now ring g h across links.now peak size in
        Told judge_reply (JudgePromise x) result }
    ensures only { let ring = ring_told n fibres family in
        let x = sheet_lent rows.now ring g h across links.now peak size in
        (other : JudgeReply) → Told judge_reply (JudgePromise x) other → other ≡ result }
    ensures value { let ring = ring_told n fibres family in
        let x = sheet_lent rows.now ring g h across links.now peak size in
        Told judge_reply (First (findings desk x)) result }
{
    let figures = Figures {
        ring: ring_told(n, fibres, family),
        cut: Cut { g, h, across },
        unsplit_peak: peak,
        size,
    };
    JudgeReply::of(ringkit::ringkit_judge(figures, rows, links))
}
