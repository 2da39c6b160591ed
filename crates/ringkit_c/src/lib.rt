#![tactic(auto)]
// The public calls as C links them: each hands on to the call of the same name in `ringkit`, and tells its answer by a struct of numbers. It is a crate of its
// own since no Rattle crate can name a static library.
mod judging; // the call that judges values
mod replies; // C's structs, each with what makes it of an answer
mod ring_told; // the ring that C tells
mod texts; // the calls that read a text
mod working; // the calls of the working table

pub use judging::ringkit_judge;
pub use replies::{
    CrossingReply, JudgeReply, LeastReply, PairReply, Reply, RowReply, TurnReply, WorkReply,
};
pub use texts::{
    ringkit_check, ringkit_crossing, ringkit_least, ringkit_parallel, ringkit_read_matrix,
    ringkit_report, ringkit_rewrite_sheet, ringkit_rewrite_table, ringkit_route,
    ringkit_route_best, ringkit_route_lowered, ringkit_route_lowered_best, ringkit_turn,
    ringkit_write_matrix,
};
pub use working::{
    ringkit_work_add, ringkit_work_change, ringkit_work_remove, ringkit_work_row,
    ringkit_work_start, ringkit_work_write,
};
