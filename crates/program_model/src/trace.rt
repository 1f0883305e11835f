//! The requests of a trace, and how a trace is run.

use fq_model::config::{Estimator, Policy};

/// A request of a trace: its moment, its submitter, its tenant and kind, its declared cost, and its cost. The moment
/// and the costs are microseconds.
#[derive(Clone, Copy, PartialEq, Eq)]
pub struct TraceRow {
    /// 0 to 100,000,000,000,000; moments do not fall from row to row.
    pub moment: u64,
    /// 0 to 63.
    pub submitter: u32,
    pub tenant: u32,
    pub kind: u32,
    /// 1 to 1,000,000,000.
    pub declared: u64,
    /// 1 to 1,000,000,000.
    pub cost: u64,
}

/// The options of a run of a trace.
#[derive(Clone, Copy, PartialEq, Eq)]
pub struct RunOptions {
    /// 1 to 64.
    pub workers: u32,
    pub policy: Policy,
    pub estimate: Estimator,
    /// The estimate before any completion, in microseconds: 1 to 1,000,000,000.
    pub initial: u64,
    /// After how many microseconds each a running request is reported: up to 1,000,000,000, and 0 for no reports.
    pub refresh: u64,
}
