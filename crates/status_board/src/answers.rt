//! The answers of a reader.
use fq_model::parts::Status;
use std::snapshot::Snapshot;

/// The newest answer, and those before it. For contracts alone: it holds nothing.
#[derive(Drop)]
pub enum Answers {
    Nothing,
    Next(Snapshot<Status>, Snapshot<Answers>),
}
