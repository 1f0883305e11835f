//! Why a call is refused: one function a call, which makes its tests in the order of the causes and answers the first
//! that holds. Each reads the journal and the tracker as they are before the call.
ghost use Rattle.std.specs.Prelude.{◌≡◌, ◌≤◌, IfOk, IfSome, IfNone};
ghost use Rattle.std.specs.Result.{result_err};
ghost use Rattle.fq_model.specs.declared.config.Config.{Config};
ghost use Rattle.fq_model.specs.History.{History, waiting};
ghost use Rattle.fq_model.specs.Rules.{submit_refusal, report_refusal, done_refusal, close_refusal, weight_refusal, workers_refusal, withdraw_refusal};
ghost use Rattle.charge_book.specs.Book.{MayUse};
ghost use Rattle.sched_journal.specs.Journal.{history};
ghost use Rattle.sched_state.specs.Refusals.{GetsNone, GetsWork, closed_cause, room_refusal};
ghost use Rattle.sched_state.specs.Tracker.{Tracks};

use crate::replies::{AlreadyClosed, Taken};
use crate::tracker::Tracker;
use charge_book::row::RunRow;
use fq_model::event::Cause;
use fq_model::job::Job;
use fq_model::limits::GREATEST_COST;
use sched_journal::Ledger;
use tag_rules::chooser::Chooser;

/// Why a submit is refused, if it is. Its declared cost is in microseconds.
pub fn submit<J: Job + Drop, X: Chooser>(
    journal: &Ledger,
    tracker: &Tracker<J, X>,
    tenant: u32,
    kind: u32,
    declared: u64,
) -> Result<(), Cause>
    requires { Tracks J.label_of X.seen journal.now.config (history journal.now) tracker.now }
    ensures { result_err result ≡ submit_refusal journal.now.config (history journal.now) tenant kind declared }
{
    let config = journal.config();
    let backlog = tracker.lists().len();
    if journal.is_closed() {
        Err(Cause::Closed)
    } else if tenant >= config.tenants() {
        Err(Cause::Tenant(tenant))
    } else if kind >= config.kinds() {
        Err(Cause::Kind(kind))
    } else if declared == 0 || declared > GREATEST_COST {
        Err(Cause::Cost(declared))
    } else if backlog == config.requests() {
        Err(Cause::Slots(backlog))
    } else {
        room(journal, backlog, 4)
    }
}

/// The result of a take by the worker, if it gets no work.
pub fn take<J: Job + Drop, X: Chooser>(
    journal: &Ledger,
    tracker: &Tracker<J, X>,
    worker: u32,
) -> Option<Taken<J>>
    requires { Tracks J.label_of X.seen journal.now.config (history journal.now) tracker.now }
    ensures told { IfSome result (GetsNone J.label_of journal.now.config (history journal.now) worker) }
    ensures work { IfNone result (GetsWork journal.now.config (history journal.now) worker) }
{
    if worker >= journal.config().workers() {
        return Some(Taken::UnknownWorker(worker));
    }
    if let Some(row) = tracker.book().running(worker) {
        return Some(Taken::Busy(row.request));
    }
    let workers = tracker.times().workers();
    if worker >= workers {
        return Some(Taken::Retired(workers));
    }
    if tracker.lists().len() > 0 {
        return None;
    }
    if journal.is_closed() {
        Some(Taken::Drained)
    } else {
        Some(Taken::Idle)
    }
}

/// Why a report of this use, in microseconds, is refused, or else the row of the worker's request.
pub fn report<J: Job + Drop, X: Chooser>(
    journal: &Ledger,
    tracker: &Tracker<J, X>,
    worker: u32,
    used: u64,
) -> Result<RunRow, Cause>
    requires { Tracks J.label_of X.seen journal.now.config (history journal.now) tracker.now }
    ensures cause { result_err result ≡ report_refusal journal.now.config (history journal.now) worker used }
    ensures row { IfOk result (λ row. MayUse tracker.now.book worker row used) }
{
    // a use is refused as it would be as a cost, or else for want of room
    let row = done(journal, tracker, worker, used)?;
    room(journal, tracker.lists().len(), 2)?;
    Ok(row)
}

/// Why a done at this cost, in microseconds, is refused, or else the row of the worker's request.
pub fn done<J: Job + Drop, X: Chooser>(
    journal: &Ledger,
    tracker: &Tracker<J, X>,
    worker: u32,
    cost: u64,
) -> Result<RunRow, Cause>
    requires { Tracks J.label_of X.seen journal.now.config (history journal.now) tracker.now }
    ensures cause { result_err result ≡ done_refusal journal.now.config (history journal.now) worker cost }
    ensures row { IfOk result (λ row. MayUse tracker.now.book worker row cost) }
{
    if worker >= journal.config().workers() {
        return Err(Cause::Worker(worker));
    }
    Ok(tracker.book().row_for(worker, cost)?)
}

/// Why a close is refused, if it is.
pub fn close(journal: &Ledger) -> Result<(), AlreadyClosed>
    ensures { closed_cause result ≡ close_refusal (history journal.now) }
{
    if journal.is_closed() {
        Err(AlreadyClosed)
    } else {
        Ok(())
    }
}

/// Why a change of a tenant's weight is refused, if it is.
pub fn weight<J: Job + Drop, X: Chooser>(
    journal: &Ledger,
    tracker: &Tracker<J, X>,
    tenant: u32,
    weight: u32,
) -> Result<(), Cause>
    requires { Tracks J.label_of X.seen journal.now.config (history journal.now) tracker.now }
    ensures { result_err result ≡ weight_refusal journal.now.config (history journal.now) tenant weight }
{
    if tenant >= journal.config().tenants() {
        Err(Cause::Tenant(tenant))
    } else if weight < 1 || weight > journal.config().limits().greatest_weight() {
        Err(Cause::Weight(weight))
    } else {
        room(journal, tracker.lists().len(), 2)
    }
}

/// Why a change of the number of workers is refused, if it is.
pub fn workers<J: Job + Drop, X: Chooser>(
    journal: &Ledger,
    tracker: &Tracker<J, X>,
    count: u32,
) -> Result<(), Cause>
    requires { Tracks J.label_of X.seen journal.now.config (history journal.now) tracker.now }
    ensures { result_err result ≡ workers_refusal journal.now.config (history journal.now) count }
{
    if count < 1 || count > journal.config().workers() {
        Err(Cause::Workers(count))
    } else {
        room(journal, tracker.lists().len(), 2)
    }
}

/// Why a withdraw of this request is refused, if it is.
pub fn withdraw<J: Job + Drop, X: Chooser>(
    tracker: &Tracker<J, X>,
    request: u32,
) -> Result<(), Cause>
    ensures { (C : Config) (P : History) → Tracks J.label_of X.seen C P tracker.now
        → result_err result ≡ withdraw_refusal P request }
{
    match tracker.lists().find(request) {
        Some(_) => Ok(()),
        None => Err(Cause::NotWaiting(request)),
    }
}

// Why `more` entries are refused, if they are, where `backlog` requests wait: the open requests need those that are
// left.
fn room(journal: &Ledger, backlog: u32, more: u64) -> Result<(), Cause>
    requires { more ≤ 4 }
    ensures { backlog ≡ waiting (history journal.now)
        → result_err result ≡ room_refusal journal.now.config (history journal.now) more }
{
    if journal.has_room(backlog, more) {
        Ok(())
    } else {
        Err(Cause::Full(journal.config().entries()))
    }
}
