// The calls of the working table.
ghost use Rattle.std.specs.Prelude.{◌≡◌, ◌≤◌, List, [], ◌∷◌, length, take};
ghost use Rattle.ring.specs.Limits.{desk};
ghost use Rattle.ring.specs.Demand.{demand};
ghost use Rattle.table.specs.Table.{table_room};
ghost use Rattle.table.specs.Says.{Accepted};
ghost use Rattle.work.specs.Changes.{placed_of, work_after, started_in, added_in, changed_in, removed_in, row_in};
ghost use Rattle.work.specs.Calls.{Call, start, add, change, remove};
ghost use Rattle.work.specs.True.{TrueTable};
ghost use Rattle.work.specs.Answered.{OnlyBytes};
ghost use Rattle.work.specs.Promises.{OnlyThis, RowPromise};
ghost use Rattle.work.specs.Made.{Made};
ghost use Rattle.work.specs.Played.{AsPlayed, AnswerAfter};
ghost use Rattle.ringkit.specs.Says.{CallPromise, Only};
ghost use Rattle.ringkit.specs.WorkCalls.{WorkDue, NoRefusal};
ghost use Rattle.ringkit.specs.Outcome.{Fills};
ghost use Rattle.ringkit.specs.TableCalls.{work_written};
ghost use Rattle.ringkit_c.specs.Replies.{ring_told, Told, Replies};
ghost use Rattle.ringkit_c.specs.Working.{work_reply, row_reply, ToldWork, ToldAnswered};

use crate::replies::{Reply, RowReply, WorkReply};
use crate::ring_told::ring_told;
use ring::Demand;
use work::Work;

/// Makes the struct a table of this ring that holds no row; its family is SONET where the number is 0 and SDH where it is any other. The reply has place 0 and the
/// cut of no rows; or 3 or 20, and then no byte of the struct has changed.
#[unsafe(no_mangle)]
pub extern "C" fn ringkit_work_start(work: &mut Work, n: u32, fibres: u32, family: u32) -> WorkReply
    // On every struct.
    ensures promise { ToldWork work.old (start (ring_told n fibres family)) result work.new }
    ensures only { OnlyThis (ToldWork work.old (start (ring_told n fibres family))) result
        work.new }
    ensures any { ToldAnswered work.old (start (ring_told n fibres family)) result work.new }
    ensures only_any { OnlyBytes (ToldAnswered work.old (start (ring_told n fibres family)))
        result work.new }
    ensures answered { Told work_reply (AnswerAfter [] (start (ring_told n fibres family))) result }
    ensures value { result ≡ work_reply (placed_of (started_in (ring_told n fibres family))) }
    ensures table { work.new ≡ work_after work.old (started_in (ring_told n fibres family)) }

    // Where it is accepted.
    ensures made { result.reason ≡ 0 → Made (start (ring_told n fibres family) ∷ []) work.new }
    ensures kept { result.reason ≡ 0 → TrueTable work.new }
    ensures played { result.reason ≡ 0 →
        AsPlayed (start (ring_told n fibres family) ∷ []) work.new }

    // On a struct made by calls, accepted or refused.
    ensures made_later { (calls : List Call) → Made calls work.old →
        Made (start (ring_told n fibres family) ∷ calls) work.new }
    ensures kept_later { (calls : List Call) → Made calls work.old → TrueTable work.new }
    ensures played_later { (calls : List Call) → Made calls work.old →
        AsPlayed (start (ring_told n fibres family) ∷ calls) work.new }
{
    WorkReply::from(ringkit::ringkit_work_start(work, ring_told(n, fibres, family)))
}

/// Puts a row at the lowest free place; its amount is in units. The reply has the place, counted from 1, and the largest cut; or 4, 5, 7 or 21, and then no
/// byte of the struct has changed.
#[unsafe(no_mangle)]
pub extern "C" fn ringkit_work_add(
    work: &mut Work,
    first: u32,
    second: u32,
    amount: u32,
) -> WorkReply
    // On a struct made by calls.
    ensures promise { let call = add (demand first second amount) in
        (calls : List Call) → Made calls work.old →
        ToldWork work.old call result work.new }
    ensures only { let call = add (demand first second amount) in
        (calls : List Call) → Made calls work.old →
        OnlyThis (ToldWork work.old call) result work.new }
    ensures made { let call = add (demand first second amount) in
        (calls : List Call) → Made calls work.old →
        Made (call ∷ calls) work.new }
    ensures kept { (calls : List Call) → Made calls work.old → TrueTable work.new }
    ensures played { let call = add (demand first second amount) in
        (calls : List Call) → Made calls work.old →
        AsPlayed (call ∷ calls) work.new }
    ensures answered { let call = add (demand first second amount) in
        (calls : List Call) → Made calls work.old →
        Told work_reply (AnswerAfter calls call) result }

    // On every struct.
    ensures any { let call = add (demand first second amount) in
        ToldAnswered work.old call result work.new }
    ensures only_any { let call = add (demand first second amount) in
        OnlyBytes (ToldAnswered work.old call) result work.new }
    ensures value { let row = demand first second amount in
        result ≡ work_reply (placed_of (added_in work.old row)) }
    ensures table { let row = demand first second amount in
        work.new ≡ work_after work.old (added_in work.old row) }
{
    let row = Demand {
        first,
        second,
        amount,
    };
    WorkReply::from(ringkit::ringkit_work_add(work, row))
}

/// Puts a row in place of the one at a place, counted from 1; its amount is in units. The reply has the place and the largest cut; or 22, 4, 5 or 7, and then
/// no byte of the struct has changed.
#[unsafe(no_mangle)]
pub extern "C" fn ringkit_work_change(
    work: &mut Work,
    place: u32,
    first: u32,
    second: u32,
    amount: u32,
) -> WorkReply
    // On a struct made by calls.
    ensures promise { let call = change place (demand first second amount) in
        (calls : List Call) → Made calls work.old →
        ToldWork work.old call result work.new }
    ensures only { let call = change place (demand first second amount) in
        (calls : List Call) → Made calls work.old →
        OnlyThis (ToldWork work.old call) result work.new }
    ensures made { let call = change place (demand first second amount) in
        (calls : List Call) → Made calls work.old →
        Made (call ∷ calls) work.new }
    ensures kept { (calls : List Call) → Made calls work.old → TrueTable work.new }
    ensures played { let call = change place (demand first second amount) in
        (calls : List Call) → Made calls work.old →
        AsPlayed (call ∷ calls) work.new }
    ensures answered { let call = change place (demand first second amount) in
        (calls : List Call) → Made calls work.old →
        Told work_reply (AnswerAfter calls call) result }

    // On every struct.
    ensures any { let call = change place (demand first second amount) in
        ToldAnswered work.old call result work.new }
    ensures only_any { let call = change place (demand first second amount) in
        OnlyBytes (ToldAnswered work.old call) result work.new }
    ensures value { let row = demand first second amount in
        result ≡ work_reply (placed_of (changed_in work.old place row)) }
    ensures table { let row = demand first second amount in
        work.new ≡ work_after work.old (changed_in work.old place row) }
{
    let row = Demand {
        first,
        second,
        amount,
    };
    WorkReply::from(ringkit::ringkit_work_change(work, place, row))
}

/// Takes the row off a place, counted from 1. The reply has the place and the largest cut; or 22, and then no byte of the struct has changed.
#[unsafe(no_mangle)]
pub extern "C" fn ringkit_work_remove(work: &mut Work, place: u32) -> WorkReply
    // On a struct made by calls.
    ensures promise { let call = remove place in (calls : List Call) → Made calls work.old →
        ToldWork work.old call result work.new }
    ensures only { let call = remove place in (calls : List Call) → Made calls work.old →
        OnlyThis (ToldWork work.old call) result work.new }
    ensures made { let call = remove place in (calls : List Call) → Made calls work.old →
        Made (call ∷ calls) work.new }
    ensures kept { (calls : List Call) → Made calls work.old → TrueTable work.new }
    ensures played { let call = remove place in (calls : List Call) → Made calls work.old →
        AsPlayed (call ∷ calls) work.new }
    ensures answered { let call = remove place in (calls : List Call) → Made calls work.old →
        Told work_reply (AnswerAfter calls call) result }

    // On every struct.
    ensures any { let call = remove place in
        ToldAnswered work.old call result work.new }
    ensures only_any { let call = remove place in
        OnlyBytes (ToldAnswered work.old call) result work.new }
    ensures value { result ≡ work_reply (placed_of (removed_in work.old place)) }
    ensures table { work.new ≡ work_after work.old (removed_in work.old place) }
{
    WorkReply::from(ringkit::ringkit_work_remove(work, place))
}

/// The row at a place, counted from 1, its amount in units; or 22 where the place holds none.
#[unsafe(no_mangle)]
pub extern "C" fn ringkit_work_row(work: &Work, place: u32) -> RowReply
    // On every struct.
    ensures promise { Told row_reply (RowPromise work.now place) result }
    ensures only { (other : RowReply) → Told row_reply (RowPromise work.now place) other →
        other ≡ result }
    ensures value { result ≡ row_reply (row_in work.now place) }
{
    RowReply::from(ringkit::ringkit_work_row(work, place))
}

/// Writes the table of the rows held, by nodes, then by place. The reply has its length in bytes; or 15, and then no byte of the buffer has changed.
#[unsafe(no_mangle)]
pub extern "C" fn ringkit_work_write(work: &Work, buffer: &mut [u8]) -> Reply
    // On every struct.
    ensures promise { Replies (CallPromise (WorkDue work.now) NoRefusal buffer.old) buffer.new
        result }
    ensures only { Only (Replies (CallPromise (WorkDue work.now) NoRefusal buffer.old))
        buffer.new result }
    ensures value { Replies (Fills (work_written work.now) buffer.old) buffer.new result }

    // On a struct made by calls.
    ensures accepted { (calls : List Call) → Made calls work.now →
        result.reason ≡ 0 → Accepted desk (take result.length buffer.new) }
    ensures fits { (calls : List Call) → Made calls work.now → result.length ≤ table_room desk }
    ensures room { (calls : List Call) → Made calls work.now →
        table_room desk ≤ length buffer.old → result.reason ≡ 0 }
{
    Reply::from(ringkit::ringkit_work_write(work, buffer))
}
