//! Entries of a history, calls and replies, and the foreseen answer to a take.

use crate::limits::GREATEST_COST;
use crate::messages::{numbered, plain, two_numbers};
use std::error::Error;
use std::fmt;

/// The act of an entry. Uses and costs are microseconds.
#[derive(Clone, Copy, Debug, PartialEq, Eq)]
pub enum Act {
    /// A request came. `declared` is the cost that its submitter names, `label` the number of its job.
    Submit {
        request: u32,
        tenant: u32,
        kind: u32,
        declared: u64,
        label: u64,
    },
    /// A worker began a request, which was charged this estimate of its cost.
    Take {
        worker: u32,
        request: u32,
        estimate: u64,
    },
    /// A running request was seen to have used this much so far.
    Report {
        worker: u32,
        request: u32,
        used: u64,
    },
    /// A request ended, and its measured cost is this.
    Done {
        worker: u32,
        request: u32,
        cost: u64,
    },
    /// From here on nothing more is submitted.
    Close,
    /// From here on the tenant has this weight.
    Weight {
        tenant: u32,
        weight: u32,
    },
    /// From here on there is this number of workers: those with lower numbers.
    Workers {
        count: u32,
    },
    /// A waiting request was withdrawn: it is never taken.
    Withdraw {
        request: u32,
    },
}

/// The record of an accepted call: its caller, its moment in microseconds, and its act.
#[derive(Clone, Copy, Debug, PartialEq, Eq)]
pub struct Entry {
    pub who: u32,
    pub moment: u64,
    pub act: Act,
}

/// Why a call is refused, with the numbers concerned.
#[derive(Clone, Copy, Debug, PartialEq, Eq)]
pub enum Cause {
    /// The history is closed.
    Closed,
    /// No tenant has this number.
    Tenant(u32),
    /// No kind has this number.
    Kind(u32),
    /// A cost or a use that is out of its range.
    Cost(u64),
    /// As many requests wait as there are slots, which is this number.
    Slots(u32),
    /// The history, which may have this many entries, lacks room for the call and all that must follow it.
    Full(u32),
    /// No worker has this number.
    Worker(u32),
    /// The worker runs this request already.
    Busy(u32),
    /// The worker runs nothing.
    NotRunning,
    /// The use or cost `given` is less than `last`, the greatest use reported so far.
    Falling { last: u64, given: u64 },
    /// A weight that is 0, or above the greatest by the limits of the configuration.
    Weight(u32),
    /// A number of workers that is 0, or more than the scheduler was opened with.
    Workers(u32),
    /// No request of this number waits: it was never submitted, or is taken or withdrawn.
    NotWaiting(u32),
}

impl fmt::Display for Cause {
    fn fmt<W: fmt::Write>(&self, f: &mut fmt::Formatter<W>) -> fmt::Result {
        match *self {
            Cause::Closed => plain(f, "the history is closed"),
            Cause::Tenant(t) => numbered(f, "no tenant has the number ", t as u64, ""),
            Cause::Kind(k) => numbered(f, "no kind has the number ", k as u64, ""),
            Cause::Cost(c) => two_numbers(
                f,
                "a cost or use of ",
                c,
                " microseconds, and it may be up to ",
                GREATEST_COST,
                ", a declared one 1 at least",
            ),
            Cause::Slots(n) => numbered(f, "", n as u64, " requests wait, and no more may"),
            Cause::Full(n) => numbered(
                f,
                "the history may have ",
                n as u64,
                " entries, and lacks room for the call and all that must follow it",
            ),
            Cause::Worker(w) => numbered(f, "no worker has the number ", w as u64, ""),
            Cause::Busy(r) => numbered(f, "the worker runs request ", r as u64, " already"),
            Cause::NotRunning => plain(f, "the worker runs nothing"),
            Cause::Falling { last, given } => two_numbers(
                f,
                "a use or cost of ",
                given,
                " microseconds, after a use of ",
                last,
                " was reported",
            ),
            Cause::Weight(w) => numbered(
                f,
                "a weight of ",
                w as u64,
                ", and it may be 1 to the greatest of the configuration's limits",
            ),
            Cause::Workers(n) => numbered(
                f,
                "",
                n as u64,
                " workers, and there may be 1 to as many as at the opening",
            ),
            Cause::NotWaiting(r) => numbered(f, "request ", r as u64, " does not wait"),
        }
    }
}

impl Error for Cause {}

/// A call to a scheduler. `who` is the caller's number, which is written down and not looked at;
/// `moment` is the caller's clock in microseconds, and may be any number.
#[derive(Clone, Copy, PartialEq, Eq)]
pub enum Call {
    /// A request comes.
    Submit {
        who: u32,
        moment: u64,
        tenant: u32,
        kind: u32,
        declared: u64,
        label: u64,
    },
    /// A worker that runs nothing asks for work.
    Take {
        who: u32,
        moment: u64,
        worker: u32,
    },
    /// A worker names the use of its request so far.
    Report {
        who: u32,
        moment: u64,
        worker: u32,
        used: u64,
    },
    /// A worker names the measured cost of its request, which has ended.
    Done {
        who: u32,
        moment: u64,
        worker: u32,
        cost: u64,
    },
    /// No more requests will come.
    Close {
        who: u32,
        moment: u64,
    },
    /// The tenant is to have this weight from now on.
    Weight {
        who: u32,
        moment: u64,
        tenant: u32,
        weight: u32,
    },
    /// There is to be this number of workers from now on.
    Workers {
        who: u32,
        moment: u64,
        count: u32,
    },
    /// A request that waits is taken back, so that no worker takes it.
    Withdraw {
        who: u32,
        moment: u64,
        request: u32,
    },
}

/// The answer to a call.
#[derive(Clone, Copy, Debug)]
pub enum Reply {
    /// The submitted request has this number.
    Request(u32),
    /// The worker runs this request, which is charged this estimate; its job has this label.
    Run {
        request: u32,
        estimate: u64,
        label: u64,
    },
    /// The report, completion, close or change of a weight or of the number of workers is written down.
    Accepted,
    /// Nothing waits now; more may come.
    Idle,
    /// Nothing waits, and nothing more will come.
    Drained,
    /// There is this number of workers now, and the worker is not among them; it may ask again.
    Retired(u32),
    /// The request is withdrawn; its job has this label.
    Withdrawn {
        label: u64,
    },
    /// Nothing was done, for this cause.
    Refused(Cause),
}

/// The request that a worker would get.
#[derive(Clone, Copy)]
pub struct ForeseenRun {
    pub request: u32,
    pub tenant: u32,
    pub kind: u32,
    /// Its charge at first, in microseconds.
    pub estimate: u64,
    /// Whether it is eligible for the worker. If it is not, no head is, and the worker would get it before its time.
    pub is_eligible: bool,
    /// Whether some head that is eligible for the worker has an estimate below the one that was asked about.
    pub has_smaller: bool,
}

/// The foreseen answer to a take.
#[derive(Clone, Copy)]
pub enum Foreseen {
    /// Nothing waits, whether or not more may come.
    Nothing,
    /// The worker would run this request.
    Run(ForeseenRun),
    /// There is this number of workers now, and the worker is not among them.
    Retired(u32),
    /// It would be refused, for this cause: no worker has its number, or it runs a request.
    Refused(Cause),
}
