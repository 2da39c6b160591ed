// The calls of the working table: it is lent by `&mut`, and altered by functions by value.
ghost use Rattle.std.specs.Prelude.{ℕ, ◌≡◌, ◌≤◌, List, [], ◌∷◌, length, take, IsOk, IfOk};
ghost use Rattle.ring.specs.Limits.{desk};
ghost use Rattle.table.specs.Table.{table_room};
ghost use Rattle.table.specs.Says.{Accepted};
ghost use Rattle.work.specs.Calls.{Call, start, add, change, remove};
ghost use Rattle.work.specs.Changes.{placed_of, work_after, started_in, added_in, changed_in, removed_in, row_in};
ghost use Rattle.work.specs.True.{TrueTable};
ghost use Rattle.work.specs.Answered.{Answered, OnlyBytes};
ghost use Rattle.work.specs.Promises.{WorkPromise, OnlyThis, RowPromise, OnlyRow};
ghost use Rattle.work.specs.Made.{Made};
ghost use Rattle.work.specs.Played.{AsPlayed, AnswerAfter};
ghost use Rattle.ringkit.specs.Outcome.{Fills};
ghost use Rattle.ringkit.specs.Says.{CallPromise, Only};
ghost use Rattle.ringkit.specs.TableCalls.{work_written};
ghost use Rattle.ringkit.specs.WorkCalls.{WorkDue, NoRefusal};

use crate::put_table;
use reasons::{Reason, Refusal};
use ring::{Demand, Ring};
use rows::Columns;
use work::{Changed, Placed, Work};

// What a change answers, and the struct behind it: one that is refused leaves it as it was.
#[tactic(auto, unfolding(work::specs::Changes::placed_of, work::specs::Changes::work_after))]
fn take_over(work: &mut Work, change: Result<Changed, Reason>) -> Result<Placed, Reason>
    ensures value { result ≡ placed_of change }
    ensures table { work.new ≡ work_after work.old change }
{
    let done = change?;
    *work = done.work;
    Ok(done.placed)
}

/// Makes the struct a table of this ring that holds no row, whatever bytes were in it. Answers place 0 and the cut of no rows. Refused with 3 where the nodes
/// are outside 2 to 64, then with 20 where the fibres are neither 2 nor 4; no byte of the struct is changed then.
pub fn ringkit_work_start(work: &mut Work, ring: Ring) -> Result<Placed, Reason>
    // On every struct.
    ensures promise { WorkPromise work.old (start ring) result work.new }
    ensures only { OnlyThis (WorkPromise work.old (start ring)) result work.new }
    ensures any { Answered work.old (start ring) result work.new }
    ensures only_any { OnlyBytes (Answered work.old (start ring)) result work.new }
    ensures answered { AnswerAfter [] (start ring) result }
    ensures value { result ≡ placed_of (started_in ring) }
    ensures table { work.new ≡ work_after work.old (started_in ring) }

    // Where it is accepted.
    ensures made { IfOk result (λ _. Made (start ring ∷ []) work.new) }
    ensures kept { IfOk result (λ _. TrueTable work.new) }
    ensures played { IfOk result (λ _. AsPlayed (start ring ∷ []) work.new) }

    // On a struct made by calls, accepted or refused.
    ensures made_later { (calls : List Call) → Made calls work.old →
        Made (start ring ∷ calls) work.new }
    ensures kept_later { (calls : List Call) → Made calls work.old → TrueTable work.new }
    ensures played_later { (calls : List Call) → Made calls work.old →
        AsPlayed (start ring ∷ calls) work.new }
{
    take_over(work, work::started(ring))
}

/// Puts a row at the lowest free place; its amount is in units, at most 9,999. Answers that place, counted from 1 to 1,024, and the largest cut of the rows
/// then held. Refused with the first that holds of 4, 5 and 7 against the row, and 21 where all places are taken; no byte of the struct is changed then.
pub fn ringkit_work_add(work: &mut Work, row: Demand) -> Result<Placed, Reason>
    // On a struct made by calls.
    ensures promise { (calls : List Call) → Made calls work.old →
        WorkPromise work.old (add row) result work.new }
    ensures only { (calls : List Call) → Made calls work.old →
        OnlyThis (WorkPromise work.old (add row)) result work.new }
    ensures made { (calls : List Call) → Made calls work.old → Made (add row ∷ calls) work.new }
    ensures kept { (calls : List Call) → Made calls work.old → TrueTable work.new }
    ensures played { (calls : List Call) → Made calls work.old →
        AsPlayed (add row ∷ calls) work.new }
    ensures answered { (calls : List Call) → Made calls work.old →
        AnswerAfter calls (add row) result }

    // On every struct.
    ensures any { Answered work.old (add row) result work.new }
    ensures only_any { OnlyBytes (Answered work.old (add row)) result work.new }
    ensures value { result ≡ placed_of (added_in work.old row) }
    ensures table { work.new ≡ work_after work.old (added_in work.old row) }
{
    take_over(work, work::added(*work, row))
}

/// Puts a row in place of the one at a place, counted from 1; its amount is in units, at most 9,999. Answers the place and the largest cut of the rows then
/// held. Refused with 22 where the place holds no row, then with the first that holds of 4, 5 and 7 against the row; no byte of the struct is changed then.
pub fn ringkit_work_change(work: &mut Work, place: u32, row: Demand) -> Result<Placed, Reason>
    // On a struct made by calls.
    ensures promise { (calls : List Call) → Made calls work.old →
        WorkPromise work.old (change place row) result work.new }
    ensures only { (calls : List Call) → Made calls work.old →
        OnlyThis (WorkPromise work.old (change place row)) result work.new }
    ensures made { (calls : List Call) → Made calls work.old →
        Made (change place row ∷ calls) work.new }
    ensures kept { (calls : List Call) → Made calls work.old → TrueTable work.new }
    ensures played { (calls : List Call) → Made calls work.old →
        AsPlayed (change place row ∷ calls) work.new }
    ensures answered { (calls : List Call) → Made calls work.old →
        AnswerAfter calls (change place row) result }

    // On every struct.
    ensures any { Answered work.old (change place row) result work.new }
    ensures only_any { OnlyBytes (Answered work.old (change place row)) result work.new }
    ensures value { result ≡ placed_of (changed_in work.old place row) }
    ensures table { work.new ≡ work_after work.old (changed_in work.old place row) }
{
    take_over(work, work::changed(*work, place, row))
}

/// Takes the row off a place, counted from 1, which is free from then on. Answers the place and the largest cut of the rows then held. Refused with 22 where
/// the place holds no row; no byte of the struct is changed then.
pub fn ringkit_work_remove(work: &mut Work, place: u32) -> Result<Placed, Reason>
    // On a struct made by calls.
    ensures promise { (calls : List Call) → Made calls work.old →
        WorkPromise work.old (remove place) result work.new }
    ensures only { (calls : List Call) → Made calls work.old →
        OnlyThis (WorkPromise work.old (remove place)) result work.new }
    ensures made { (calls : List Call) → Made calls work.old →
        Made (remove place ∷ calls) work.new }
    ensures kept { (calls : List Call) → Made calls work.old → TrueTable work.new }
    ensures played { (calls : List Call) → Made calls work.old →
        AsPlayed (remove place ∷ calls) work.new }
    ensures answered { (calls : List Call) → Made calls work.old →
        AnswerAfter calls (remove place) result }

    // On every struct.
    ensures any { Answered work.old (remove place) result work.new }
    ensures only_any { OnlyBytes (Answered work.old (remove place)) result work.new }
    ensures value { result ≡ placed_of (removed_in work.old place) }
    ensures table { work.new ≡ work_after work.old (removed_in work.old place) }
{
    take_over(work, work::removed(*work, place))
}

/// The row at a place, counted from 1, its amount in units. Refused with 22 where the place holds none, as 0 and all above 1,024 do.
pub fn ringkit_work_row(work: &Work, place: u32) -> Result<Demand, Reason>
    // On every struct.
    ensures promise { RowPromise work.now place result }
    ensures only { OnlyRow work.now place result }
    ensures value { result ≡ row_in work.now place }
{
    work::row_of(work, place)
}

// Writes the rows held, by nodes, then by place, at the start of a buffer that has room for them.
fn written(work: &Work, buffer: &mut [u8]) -> Result<usize, Refusal>
    ensures promise { CallPromise (WorkDue work.now) NoRefusal buffer.old buffer.new result }
    ensures value { Fills (work_written work.now) buffer.old buffer.new result }
{
    let mut rows = Columns::new();
    work::sorted(work, &mut rows);
    put_table(buffer, work.ring.ring(), &rows)
}

/// Writes the table of the rows held, by nodes, then by place, at the start of the buffer. Answers its length, at most `table_bytes()` of a table that calls
/// made. Where the buffer is too short the refusal is 15, with line and byte 0, and the buffer stays as it was; there is no other.
pub fn ringkit_work_write(work: &Work, buffer: &mut [u8]) -> Result<usize, Refusal>
    // On every struct.
    ensures promise { CallPromise (WorkDue work.now) NoRefusal buffer.old buffer.new result }
    ensures only { Only (CallPromise (WorkDue work.now) NoRefusal buffer.old) buffer.new result }
    ensures value { Fills (work_written work.now) buffer.old buffer.new result }

    // On a struct made by calls.
    ensures accepted { (calls : List Call) → Made calls work.now →
        IfOk result (λ length. Accepted desk (take length buffer.new)) }
    ensures fits { (calls : List Call) → Made calls work.now →
        IfOk result (λ length. length ≤ table_room desk) }
    ensures room { (calls : List Call) → Made calls work.now →
        table_room desk ≤ length buffer.old → IsOk result }
{
    written(work, buffer)
}
