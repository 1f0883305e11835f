//! The outcomes of calls to a service.

use crate::refusal::ServiceRefusal;

/// A request that a worker is to run from now on.
#[derive(Clone, Copy, Debug, PartialEq, Eq)]
pub struct Grant {
    pub label: u64,
    pub ticket: u64,
    pub worker: u32,
    pub slot: u32,
    pub kind: u32,
    /// Its charge at first, in microseconds.
    pub estimate: u64,
    /// How long it waited, held or not, in microseconds.
    pub waited: u64,
}

/// The answer to a call.
#[derive(Clone, Copy, Debug, PartialEq, Eq)]
pub enum ServiceOutcome {
    /// The request is admitted, with this ticket: the number of requests that were admitted before it.
    Ticket(u64),
    /// The request is taken back; it had this label.
    Cancelled { label: u64 },
    /// No request with this ticket waits: it was never admitted, runs, or has come to its end.
    NotWaiting,
    /// A worker is to run this request.
    Grant(Grant),
    /// The deadline of this request has passed, and it is withdrawn.
    Late { label: u64, ticket: u64 },
    /// Nothing more is to be done now. Ask again after the next call, or at this moment, if there is one.
    Rest { until: Option<u64> },
    /// The new tenant has this slot, in this generation.
    Slot { slot: u32, generation: u32 },
    /// The call is made.
    Accepted,
    /// Nothing was done, for this cause.
    Refused(ServiceRefusal),
}
