//! The rows that a submitter hands in.
use fq_model::event::Cause;
use std::collections::VecDeque;

/// A request to be submitted, with its job.
#[derive(Drop)]
pub struct Row<J> {
    /// The tenant, as an index.
    pub tenant: u32,
    /// The kind, as an index.
    pub kind: u32,
    /// The cost that is declared, in microseconds.
    pub declared: u64,
    pub job: J,
}

/// How a feed ended.
#[derive(Drop)]
pub enum Fed<J> {
    /// All rows were submitted.
    All,
    /// `row` was refused for this cause, and `rest` are the rows after it.
    Stopped {
        row: Row<J>,
        rest: VecDeque<Row<J>>,
        cause: Cause,
    },
}
