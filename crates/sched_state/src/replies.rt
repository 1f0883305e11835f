//! The results of the calls of a scheduler.
ghost use Rattle.std.specs.Prelude.{◌≡◌};
ghost use Rattle.sched_state.specs.Replies.{foreseen_by};

use fq_model::event::{Cause, Foreseen};
use std::error::Error;
use std::fmt;

/// The history is closed already.
#[derive(Clone, Copy, Debug, PartialEq, Eq)]
pub struct AlreadyClosed;

impl fmt::Display for AlreadyClosed {
    fn fmt<W: fmt::Write>(&self, f: &mut fmt::Formatter<W>) -> fmt::Result {
        write!(f, "the history is closed already")
    }
}

impl Error for AlreadyClosed {}

/// A submission that is refused: its job comes back, with the cause.
#[derive(Drop, Debug, PartialEq, Eq)]
pub struct Refused<J> {
    pub job: J,
    pub cause: Cause,
}

impl<J> fmt::Display for Refused<J> {
    fn fmt<W: fmt::Write>(&self, f: &mut fmt::Formatter<W>) -> fmt::Result {
        write!(f, "{}", self.cause)
    }
}

impl<J: fmt::Debug + Drop> Error for Refused<J> {}

/// The result of a take: the first of these that is so.
#[derive(Drop)]
pub enum Taken<J> {
    /// No worker has this number.
    UnknownWorker(u32),
    /// The worker runs this request already.
    Busy(u32),
    /// The number of workers now. This worker is not among them; it may ask again.
    Retired(u32),
    /// The worker runs this request from now on; it is charged this estimate, in microseconds.
    Run { request: u32, estimate: u64, job: J },
    /// Nothing waits, and nothing more will come.
    Drained,
    /// Nothing waits now; more may come.
    Idle,
}

/// The foreseen take of a worker whose take would have this result, without work.
pub(crate) fn foreseen_of<J: Drop>(told: Taken<J>) -> Foreseen
    ensures { result ≡ foreseen_by told }
{
    match told {
        Taken::UnknownWorker(worker) => Foreseen::Refused(Cause::Worker(worker)),
        Taken::Busy(request) => Foreseen::Refused(Cause::Busy(request)),
        Taken::Retired(workers) => Foreseen::Retired(workers),
        Taken::Run { .. } | Taken::Drained | Taken::Idle => Foreseen::Nothing,
    }
}
