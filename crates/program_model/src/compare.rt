//! The comparison of policies and estimators: its options and its rows.

use fq_model::config::{Estimator, Policy};

/// The policies that are compared, in the order of their words: those that are published.
pub const POLICIES: [Policy; 4] = [Policy::Wfq, Policy::Wf2q, Policy::Msf2q, Policy::TwoDfq];

/// The estimators that each is compared with, in the order of their words.
pub const ESTIMATORS: [Estimator; 3] = [
    Estimator::Declared,
    Estimator::Recent,
    Estimator::Pessimistic,
];

/// The options of the runs of a trace under each policy and estimator.
#[derive(Clone, Copy, PartialEq, Eq)]
pub struct CompareOptions {
    /// 1 to 64.
    pub workers: u32,
    /// The estimate before any completion, in microseconds: 1 to 1,000,000,000.
    pub initial: u64,
    /// After how many microseconds each a running request is reported: up to 1,000,000,000, and 0 for no reports.
    pub refresh: u64,
    /// How long the slots of the lag reports are, in microseconds: up to 1,000,000,000,000,000, and 0 for each report's
    /// automatic slot.
    pub slot: u64,
}

/// The results of one policy and estimator on a trace.
#[derive(Clone, Copy)]
pub struct CompareRow {
    pub policy: Policy,
    pub estimate: Estimator,
    /// The moment of the last entry.
    pub end: u64,
    /// How many entries there are.
    pub entries: u64,
    /// The least lag of all tenants, after any slot.
    pub least: i64,
    /// The greatest.
    pub greatest: i64,
}
