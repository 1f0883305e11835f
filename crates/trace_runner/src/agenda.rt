//! The events of a simulation that are still to come.
ghost use Rattle.std.specs.Prelude.{◌≡◌, ◌+◌, ◌<◌, ◌≤◌, IfOk, IfSome, MatchOption, length};
ghost use Rattle.trace_runner.specs.Staff.{IsSmall};
ghost use Rattle.trace_runner.specs.Agenda.{opened_agenda, after_work, after_submit, after_take};
ghost use Rattle.trace_runner.specs.Agenda.{event_of_work, event_of_row, comes_by};
ghost use Rattle.trace_runner.specs.Agenda.{IsTimed, NothingTimed, IsNext, NothingNext};

use crate::staff::{Staff, Work};
use fq_model::limits::{GREATEST_SUBMITTER, MOST_ROWS, TEXT_WORKERS};
use program_model::trace::TraceRow;
use std::alloc::{AllocError, Global};

/// The call of the simulation at an event.
#[derive(Clone, Copy)]
pub enum EventCall {
    /// The worker reports the use of its request so far.
    Report { worker: u32, work: Work },
    /// The worker's request ends.
    Done { worker: u32, work: Work },
    /// The next request comes.
    Submit(TraceRow),
    /// The worker takes a request.
    Take { worker: u32 },
}

/// One call of the simulation, and its moment in microseconds.
#[derive(Clone, Copy)]
pub struct Event {
    pub moment: u64,
    pub what: EventCall,
}

/// The events that are still to come, and the progress of the simulation. No call after `open` takes memory, and none
/// goes over the rows or the workers.
#[derive(Drop)]
pub struct Agenda {
    pub(crate) staff: Staff,
    /// The caller that is worker 0.
    pub(crate) first_caller: u32,
    /// The moment of the last entry, or 0.
    pub(crate) moment: u64,
    /// How many requests were submitted.
    pub(crate) submitted: usize,
    /// How many of these wait.
    pub(crate) waiting: u32,
}

impl Agenda {
    /// The agenda of a simulation that begins, with this number of workers.
    pub fn open(alloc: Global, workers: u32, first_caller: u32) -> Result<Agenda, AllocError>
        requires some { 1 ≤ workers }
        requires few { workers ≤ TEXT_WORKERS }
        ensures opened { IfOk result (λ a. a ≡ opened_agenda workers first_caller) }
    {
        Ok(Agenda {
            staff: Staff::open(alloc, workers)?,
            first_caller,
            moment: 0,
            submitted: 0,
            waiting: 0,
        })
    }

    /// The caller that is this worker.
    pub fn caller(&self, worker: u32) -> u32
        requires callers { self.now.first_caller ≤ GREATEST_SUBMITTER + 1 }
        requires workers { worker < TEXT_WORKERS }
        ensures { result ≡ self.now.first_caller + worker }
    {
        self.first_caller + worker
    }

    /// The next event, of requests that come in this order: the first one by moment, and at one moment Reports before
    /// Dones, Dones before Submits and Submits before Takes.
    pub fn next(&self, rows: &[TraceRow]) -> Option<Event>
        ensures { MatchOption result (NothingNext self.now rows.now) (IsNext self.now rows.now) }
    {
        let timed = self.next_timed(rows);
        if self.waiting == 0 || comes_by(timed, self.moment) {
            return timed;
        }
        match self.staff.first_idle() {
            Some(worker) => Some(Event {
                moment: self.moment,
                what: EventCall::Take { worker },
            }),
            None => timed,
        }
    }

    // The next event but for Takes.
    fn next_timed(&self, rows: &[TraceRow]) -> Option<Event>
        ensures { MatchOption result (NothingTimed self.now rows.now) (IsTimed self.now rows.now) }
    {
        match (self.staff.first_work(), rows.get(self.submitted)) {
            (None, None) => None,
            (None, Some(row)) => Some(of_row(*row)),
            (Some((worker, work)), None) => Some(of_work(worker, work)),
            (Some((worker, work)), Some(row)) => {
                if work.moment() <= row.moment {
                    Some(of_work(worker, work))
                } else {
                    Some(of_row(*row))
                }
            }
        }
    }

    /// Notes that at this moment a worker's Report or Done came, and the work of the worker from then on.
    pub fn worked(&mut self, moment: u64, worker: u32, next: Option<Work>)
        requires worker { worker < length self.old.staff }
        requires small { IfSome next IsSmall }
        ensures { self.new ≡ after_work self.old moment worker next }
    {
        self.staff.set(worker, next);
        self.moment = moment;
    }

    /// Notes that the next request came at this moment.
    pub fn came(&mut self, moment: u64)
        requires few { self.old.submitted < MOST_ROWS }
        requires waiting { self.old.waiting ≤ self.old.submitted }
        ensures { self.new ≡ after_submit self.old moment }
    {
        self.submitted += 1;
        self.waiting += 1;
        self.moment = moment;
    }

    /// Notes that a worker took a request, and serves this now.
    pub fn taken(&mut self, worker: u32, work: Work)
        requires worker { worker < length self.old.staff }
        requires small { IsSmall work }
        requires some { 1 ≤ self.old.waiting }
        ensures { self.new ≡ after_take self.old worker work }
    {
        self.staff.set(worker, Some(work));
        self.waiting -= 1;
    }
}

// The next event of a worker that serves this.
fn of_work(worker: u32, work: Work) -> Event
    requires { IsSmall work }
    ensures { result ≡ event_of_work worker work }
{
    let what = if work.due < work.cost {
        EventCall::Report { worker, work }
    } else {
        EventCall::Done { worker, work }
    };
    Event {
        moment: work.moment(),
        what,
    }
}

// The Submit of a request.
fn of_row(row: TraceRow) -> Event
    ensures { result ≡ event_of_row row }
{
    Event {
        moment: row.moment,
        what: EventCall::Submit(row),
    }
}

// Whether there is an event and it comes at this moment or before.
fn comes_by(event: Option<Event>, moment: u64) -> bool
    ensures { result ≡ comes_by event moment }
{
    match event {
        Some(event) => event.moment <= moment,
        None => false,
    }
}
