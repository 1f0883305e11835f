//! Why a call to a service is refused.

use fq_model::messages::{numbered, plain};
use std::error::Error;
use std::fmt;

/// Why a call is refused, with the numbers concerned. Each call has its causes in an order, and the first is told.
#[derive(Clone, Copy, Debug, PartialEq, Eq)]
pub enum ServiceRefusal {
    /// The service is closed.
    Closed,
    /// No slot has this number, or its tenant is of another generation.
    Tenant(u32),
    /// No kind has this number.
    Kind(u32),
    /// A declared cost that is not from 1 to 10^9.
    Cost(u64),
    /// The deadline is before the moment of the call.
    Late(u64),
    /// As many requests wait as the room has places.
    TooManyWait,
    /// As many requests of the tenant wait as may.
    TenantFull,
    /// The history lacks room, and requests still run in the one before it: the call may be made again once they have
    /// ended. Or all tickets are given.
    Full,
    /// The worker runs nothing.
    NotRunning,
    /// A weight that is out of its range.
    Weight(u32),
    /// Each slot that may be joined has requests that wait or run.
    NoSlot,
    /// A number of workers that is 0, or more than the service was opened with.
    Workers(u32),
}

impl fmt::Display for ServiceRefusal {
    fn fmt<W: fmt::Write>(&self, f: &mut fmt::Formatter<W>) -> fmt::Result {
        match *self {
            ServiceRefusal::Closed => plain(f, "the service is closed"),
            ServiceRefusal::Tenant(slot) => {
                numbered(
                    f,
                    "no tenant of this generation has the slot ",
                    slot as u64,
                    "",
                )
            }
            ServiceRefusal::Kind(k) => numbered(f, "no kind has the number ", k as u64, ""),
            ServiceRefusal::Cost(c) => numbered(
                f,
                "a declared cost of ",
                c,
                " microseconds, and it may be 1 to 1000000000",
            ),
            ServiceRefusal::Late(d) => numbered(f, "the deadline, ", d, ", has passed"),
            ServiceRefusal::TooManyWait => plain(f, "all places are taken"),
            ServiceRefusal::TenantFull => plain(f, "too many requests of the tenant wait"),
            ServiceRefusal::Full => plain(
                f,
                "the history lacks room, and requests still run in the one before it",
            ),
            ServiceRefusal::NotRunning => plain(f, "the worker runs nothing"),
            ServiceRefusal::Weight(w) => numbered(
                f,
                "a weight of ",
                w as u64,
                ", which is out of its range",
            ),
            ServiceRefusal::NoSlot => plain(f, "each slot has requests that wait or run"),
            ServiceRefusal::Workers(n) => numbered(
                f,
                "",
                n as u64,
                " workers, and there may be 1 to as many as at the opening",
            ),
        }
    }
}

impl Error for ServiceRefusal {}
