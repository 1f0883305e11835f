//! The tokens of a desk's callers. Each token must be spent, and stands for one caller.
ghost use Rattle.std.specs.Prelude.{◌≡◌, ◌<◌, ◌+◌, None, Some};
ghost use Rattle.fq_model.specs.History.{history_of, running_on};
ghost use Rattle.fq_model.specs.Outcome.{own_entries};
ghost use Rattle.desk.specs.Tokens.{submitters_of, workers_of};

use crate::floor::Crew;
use history_lock::Pass;

/// The right to submit, to withdraw, to close, and to change weights and the number of workers.
pub struct Submitter {
    pub(crate) pass: Pass<Crew>,
    ghost own: { pass.mine ≡ own_entries pass.seen pass.number },
    ghost below: { pass.number < submitters_of pass.frame },
}

impl Submitter {
    /// The number that its entries have as `who`.
    pub fn number(&self) -> u32
        ensures { result ≡ self.now.pass.number }
    {
        self.pass.number()
    }
}

/// A worker that runs nothing, and may take.
pub struct Worker {
    pub(crate) pass: Pass<Crew>,
    pub(crate) worker: u32,
    ghost own: { pass.mine ≡ own_entries pass.seen pass.number },
    ghost numbered: { pass.number ≡ submitters_of pass.frame + worker },
    ghost known: { worker < workers_of pass.frame },
    ghost free: { running_on (history_of pass.mine) worker ≡ None },
}

/// A worker that runs a request, which it is to end.
pub struct Running {
    pub(crate) pass: Pass<Crew>,
    pub(crate) worker: u32,
    pub(crate) request: u32,
    pub(crate) estimate: u64,
    ghost own: { pass.mine ≡ own_entries pass.seen pass.number },
    ghost numbered: { pass.number ≡ submitters_of pass.frame + worker },
    ghost known: { worker < workers_of pass.frame },
    ghost runs: { running_on (history_of pass.mine) worker ≡ Some request },
}

impl Running {
    /// The request that runs.
    pub fn request(&self) -> u32
        ensures { result ≡ self.now.request }
    {
        self.request
    }

    /// The request's estimate at its take, which was then its charge, in microseconds.
    pub fn estimate(&self) -> u64
        ensures { result ≡ self.now.estimate }
    {
        self.estimate
    }

    /// The worker's number among the workers.
    pub fn worker(&self) -> u32
        ensures { result ≡ self.now.worker }
    {
        self.worker
    }
}

/// The answer to a worker's take. The job is that of the request.
pub enum Took<J> {
    Run(Running, J),
    /// Nothing waits now; more may come.
    Idle(Worker),
    /// Nothing waits, and nothing more will come.
    Drained(Worker),
    /// The pool has this number of workers now, and this one is not among them; it may take again later.
    Retired(Worker, u32),
}
