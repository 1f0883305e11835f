//! Why a worker took a request.

/// A tenant's head at a worker's turn. All times are in steps of virtual time.
#[derive(Clone, Copy)]
pub struct ExplainRow {
    pub tenant: u32,
    /// The request that is the head.
    pub head: u32,
    /// Where the tenant starts.
    pub start: i128,
    /// Where the head finishes.
    pub finish: i128,
    /// The virtual time from which on the head is eligible for the worker. Under `wfq`, where a head is always
    /// eligible, this is the start.
    pub key: i128,
    /// Whether it is eligible at the turn; under `wfq` every head is.
    pub eligible: bool,
}

/// A worker's turn, and the heads that it chose from.
#[derive(Drop)]
pub struct Explained {
    pub worker: u32,
    /// In microseconds.
    pub moment: u64,
    /// Virtual time at that moment, in steps.
    pub vtime: i128,
    /// A row for each tenant that had a head, by the tenants' numbers.
    pub rows: Vec<ExplainRow>,
}
