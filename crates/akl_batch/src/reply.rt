//! What a batch answers.

use akl_model::Label;
use akl_run::{Refusal, Status};

/// What became of one query.
#[derive(Drop)]
pub struct Reply {
    /// The outcome of the query's run, or that the query is refused.
    pub status: Status,
    /// Why the query is refused; `Nothing` where it isn't.
    pub refusal: Refusal,
    /// The labels that were committed, in order: none where the query is refused.
    pub journal: Vec<Label>,
}

/// What became of a batch.
#[derive(Drop)]
pub struct BatchReport {
    /// `Done` where all replies were written.
    pub status: Status,
    /// Why the words or the program are refused; `Nothing` where they aren't.
    pub refusal: Refusal,
    /// A reply for each query, in their order, with `Done` and `WriteFault`; else none.
    pub replies: Vec<Reply>,
    /// How many bytes were written.
    pub written: u64,
}

/// A reply with its text.
#[derive(Drop)]
pub struct Answer {
    pub reply: Reply,
    pub text: Vec<u8>,
}
