//! Any call on a scheduler, and its reply; and the reply that each result of a call is.
ghost use Rattle.std.specs.Prelude.{◌≡◌};
ghost use Rattle.sched_state.specs.Replies.{AnswersCall, submit_reply, take_reply, change_reply, withdraw_reply, close_reply};

use crate::replies::{AlreadyClosed, Refused, Taken};
use crate::scheduler::Scheduler;
use fq_model::event::{Call, Cause, Reply};
use sched_journal::Store;
use tag_rules::chooser::Chooser;

/// The scheduler's reply to a call. The label of a submit is the job of its request.
pub fn answer<X: Chooser, S: Store + Drop>(
    scheduler: &mut Scheduler<u64, X, S>,
    call: Call,
) -> Reply
    ensures { AnswersCall scheduler.old call result scheduler.new }
{
    match call {
        Call::Submit {
            who,
            moment,
            tenant,
            kind,
            declared,
            label,
        } => submitted(scheduler.submit(who, moment, tenant, kind, declared, label)),
        Call::Take {
            who,
            moment,
            worker,
        } => taken(scheduler.take(who, moment, worker)),
        Call::Report {
            who,
            moment,
            worker,
            used,
        } => told(scheduler.report(who, moment, worker, used)),
        Call::Done {
            who,
            moment,
            worker,
            cost,
        } => told(scheduler.done(who, moment, worker, cost)),
        Call::Close { who, moment } => closed(scheduler.close(who, moment)),
        Call::Weight {
            who,
            moment,
            tenant,
            weight,
        } => told(scheduler.weight(who, moment, tenant, weight)),
        Call::Workers { who, moment, count } => told(scheduler.workers(who, moment, count)),
        Call::Withdraw {
            who,
            moment,
            request,
        } => withdrawn(scheduler.withdraw(who, moment, request)),
    }
}

/// The reply to a submit.
pub fn submitted(outcome: Result<u32, Refused<u64>>) -> Reply
    ensures { result ≡ submit_reply outcome }
{
    match outcome {
        Ok(request) => Reply::Request(request),
        Err(refused) => Reply::Refused(refused.cause),
    }
}

/// The reply to a take. The label of a job is the job.
pub fn taken(outcome: Taken<u64>) -> Reply
    ensures { result ≡ take_reply (λ job. job) outcome }
{
    match outcome {
        Taken::UnknownWorker(worker) => Reply::Refused(Cause::Worker(worker)),
        Taken::Busy(request) => Reply::Refused(Cause::Busy(request)),
        Taken::Retired(workers) => Reply::Retired(workers),
        Taken::Run {
            request,
            estimate,
            job,
        } => Reply::Run {
            request,
            estimate,
            label: job,
        },
        Taken::Drained => Reply::Drained,
        Taken::Idle => Reply::Idle,
    }
}

/// The reply to a report, a done, or a change of a weight or of the number of workers.
pub fn told(outcome: Result<(), Cause>) -> Reply
    ensures { result ≡ change_reply outcome }
{
    match outcome {
        Ok(()) => Reply::Accepted,
        Err(cause) => Reply::Refused(cause),
    }
}

/// The reply to a withdraw. The label of a job is the job.
pub fn withdrawn(outcome: Result<u64, Cause>) -> Reply
    ensures { result ≡ withdraw_reply (λ job. job) outcome }
{
    match outcome {
        Ok(job) => Reply::Withdrawn { label: job },
        Err(cause) => Reply::Refused(cause),
    }
}

/// The reply to a close.
pub fn closed(outcome: Result<(), AlreadyClosed>) -> Reply
    ensures { result ≡ close_reply outcome }
{
    match outcome {
        Ok(()) => Reply::Accepted,
        Err(AlreadyClosed) => Reply::Refused(Cause::Closed),
    }
}
