//! How a desk ends.
ghost use Rattle.std.specs.Prelude.{◌≡◌, ◌≢◌, ℕ, IfOk, IfErr, IsOk};
ghost use Rattle.history_lock.specs.Passes.{IsOf, HasNoneAbove};
ghost use Rattle.desk.specs.Ending.{HoldsOfEach, HasJoined, AreOf, HasAll, AreAll, LastMoment, first_made, IsGivenBack};
ghost use Rattle.desk.specs.Shown.{board_of, Shows, AreReadersOf, HaveSeen};

use crate::desk::DeskOf;
use crate::floor::{Crew, Floor};
use crate::shown::{Shown, end_shown};
use crate::tokens::{Submitter, Worker};
use fq_model::job::Job;
use history_lock::{HistoryLock, Pass, Unsettled};
use sched_state::Scheduler;
use status_board::Reader;
use tag_rules::chooser::Chooser;

fn join_submitters<J: Job + Drop, X: Chooser>(
    lock: &HistoryLock<Floor<J, X>>,
    first: &mut Pass<Crew>,
    mut tokens: Vec<Submitter>,
)
    requires own { IsOf lock.now first.old }
    requires number { first.old.number ≡ 0 }
    requires tokens { HoldsOfEach (λ t. IsOf lock.now t.pass) tokens.items }
    ensures { HasJoined lock.now (λ t. t.pass) first.old tokens.items first.new }
{
    while let Some(token) = tokens.pop() {
        let Submitter { pass } = token;
        lock.join(first, pass);
    }
    tokens.destroy_empty();
}

fn join_workers<J: Job + Drop, X: Chooser>(
    lock: &HistoryLock<Floor<J, X>>,
    first: &mut Pass<Crew>,
    mut tokens: Vec<Worker>,
)
    requires own { IsOf lock.now first.old }
    requires number { first.old.number ≡ 0 }
    requires tokens { HoldsOfEach (λ t. IsOf lock.now t.pass) tokens.items }
    ensures { HasJoined lock.now (λ t. t.pass) first.old tokens.items first.new }
{
    while let Some(token) = tokens.pop() {
        let Worker { pass, worker: _ } = token;
        lock.join(first, pass);
    }
    tokens.destroy_empty();
}

// Takes in all tokens, closes the lock, and gives the parts of its floor where every turn that was drawn was served.
fn closed<J: Job + Drop, X: Chooser + Drop>(
    lock: HistoryLock<Floor<J, X>>,
    mut submitters: Vec<Submitter>,
    workers: Vec<Worker>,
) -> Result<(Scheduler<J, X>, Option<Shown>), Unsettled>
    requires { AreOf lock submitters.items workers.items }
    ensures tokens { IfOk result (λ r. HasAll r.0.past submitters.items workers.items) }
    ensures above { IfOk result (λ r. HasNoneAbove r.0.past (first_made submitters.items)) }
    ensures given_back { IfOk result (λ r. IsGivenBack lock.frame r.0) }
    ensures shown { IfOk result (λ r. Shows lock.frame.config r.0.past r.1 × (board_of r.1 ≡ lock.frame.board)) }
    ensures settled { AreAll submitters.items workers.items → IsOk result }
    ensures exact { (drawn : ℕ) × (served : ℕ)
        × LastMoment J lock submitters.items workers.items drawn served
        × IfOk result (λ r. drawn ≡ served)
        × IfErr result (λ u. (u.drawn ≡ drawn) × (u.served ≡ served) × (drawn ≢ served)) }
{
    let Submitter { pass: mut first } = submitters.remove(0);
    join_submitters(&lock, &mut first, submitters);
    join_workers(&lock, &mut first, workers);
    let floor = lock.close(first)?;
    Ok(floor.into_parts())
}

impl<J: Job + Drop, X: Chooser + Drop> DeskOf<Floor<J, X>> {
    /// Ends the desk, and gives its scheduler where every turn that was drawn was served; else the scheduler is given
    /// up. So it is given where all tokens of the desk are handed in. The first submitter has number 0. Both counts are
    /// those of the lock's last moment, modulo 2^64.
    pub fn finish(
        self,
        submitters: Vec<Submitter>,
        workers: Vec<Worker>,
    ) -> Result<Scheduler<J, X>, Unsettled>
        requires { AreOf self.lock submitters.items workers.items }
        ensures tokens { IfOk result (λ s. HasAll s.past submitters.items workers.items) }
        ensures above { IfOk result (λ s. HasNoneAbove s.past (first_made submitters.items)) }
        ensures given_back { IfOk result (IsGivenBack self.lock.frame) }
        ensures settled { AreAll submitters.items workers.items → IsOk result }
        ensures exact { (drawn : ℕ) × (served : ℕ)
            × LastMoment J self.lock submitters.items workers.items drawn served
            × IfOk result (λ s. drawn ≡ served)
            × IfErr result (λ u. (u.drawn ≡ drawn) × (u.served ≡ served) × (drawn ≢ served)) }
    {
        let DeskOf {
            lock,
            bell: _,
            board: _,
        } = self;
        let (scheduler, _shown) = closed(lock, submitters, workers)?;
        Ok(scheduler)
    }

    /// Ends a desk that shows its past, as `finish` does, and its readers. Each reader has seen a prefix of the past.
    pub fn finish_shown(
        self,
        submitters: Vec<Submitter>,
        workers: Vec<Worker>,
        readers: Vec<Reader>,
    ) -> Result<Scheduler<J, X>, Unsettled>
        requires tokens { AreOf self.lock submitters.items workers.items }
        requires readers { AreReadersOf self.lock.frame.board readers.items }
        ensures tokens { IfOk result (λ s. HasAll s.past submitters.items workers.items) }
        ensures above { IfOk result (λ s. HasNoneAbove s.past (first_made submitters.items)) }
        ensures given_back { IfOk result (IsGivenBack self.lock.frame) }
        ensures seen { IfOk result (λ s. HaveSeen s.past readers.items) }
        ensures settled { AreAll submitters.items workers.items → IsOk result }
        ensures exact { (drawn : ℕ) × (served : ℕ)
            × LastMoment J self.lock submitters.items workers.items drawn served
            × IfOk result (λ s. drawn ≡ served)
            × IfErr result (λ u. (u.drawn ≡ drawn) × (u.served ≡ served) × (drawn ≢ served)) }
    {
        let DeskOf {
            lock,
            bell: _,
            board: _,
        } = self;
        match closed(lock, submitters, workers) {
            Ok((scheduler, shown)) => {
                end_shown(shown, readers);
                Ok(scheduler)
            }
            Err(unsettled) => {
                end_shown(None, readers);
                Err(unsettled)
            }
        }
    }
}
