//! The calls that a scheduler answers at a caller's turn, and its answers.
use fq_model::event::Cause;
use sched_state::{AlreadyClosed, Refused, Taken};

/// A call that a caller makes at its turn. The lock adds the caller's number. Moments, uses and costs are microseconds.
pub enum Ask<J> {
    /// A request comes, with its job.
    Submit {
        moment: u64,
        tenant: u32,
        kind: u32,
        declared: u64,
        job: J,
    },
    /// A worker takes its next request.
    Take {
        moment: u64,
        worker: u32,
    },
    /// A worker names the use of its request so far.
    Report {
        moment: u64,
        worker: u32,
        used: u64,
    },
    /// A worker names the cost of its request, now that it has ended.
    Done {
        moment: u64,
        worker: u32,
        cost: u64,
    },
    /// No more requests will come.
    Close {
        moment: u64,
    },
    /// The tenant is to have this weight from now on.
    Weight {
        moment: u64,
        tenant: u32,
        weight: u32,
    },
    /// The pool is to have this number of workers from now on.
    Workers {
        moment: u64,
        count: u32,
    },
    /// A request that waits is to be taken by nobody.
    Withdraw {
        moment: u64,
        request: u32,
    },
}

/// The scheduler's answer to each kind of call.
#[derive(Drop)]
pub enum DeskReply<J> {
    Submitted(Result<u32, Refused<J>>),
    Took(Taken<J>),
    Closed(Result<(), AlreadyClosed>),
    /// Of a report, a done, a weight, and a number of workers.
    Changed(Result<(), Cause>),
    Withdrawn(Result<J, Cause>),
}

/// Asks to foresee a take by this worker at this moment, in microseconds.
#[derive(Clone, Copy)]
pub struct AskForeseen {
    pub moment: u64,
    pub worker: u32,
    /// The estimate, in microseconds, below which a head is a smaller one.
    pub below: u64,
}
