//! A scheduler's answer to a call.
ghost use Rattle.sched_state.specs.Replies.{AnswersCall};
ghost use Rattle.desk.specs.Asking.{call_of, reply_of, Suits};

use crate::asking::{Ask, DeskReply};
use fq_model::job::Job;
use sched_state::Scheduler;
use tag_rules::chooser::Chooser;

/// Makes the call that this caller asks for.
pub(crate) fn answer<J: Job + Drop, X: Chooser>(
    scheduler: &mut Scheduler<J, X>,
    who: u32,
    call: Ask<J>,
) -> DeskReply<J>
    ensures answers { AnswersCall scheduler.old (call_of J.label_of who call) (reply_of J.label_of result)
        scheduler.new }
    ensures suits { Suits call result }
{
    match call {
        Ask::Submit {
            moment,
            tenant,
            kind,
            declared,
            job,
        } => DeskReply::Submitted(scheduler.submit(who, moment, tenant, kind, declared, job)),
        Ask::Take { moment, worker } => DeskReply::Took(scheduler.take(who, moment, worker)),
        Ask::Report {
            moment,
            worker,
            used,
        } => DeskReply::Changed(scheduler.report(who, moment, worker, used)),
        Ask::Done {
            moment,
            worker,
            cost,
        } => DeskReply::Changed(scheduler.done(who, moment, worker, cost)),
        Ask::Close { moment } => DeskReply::Closed(scheduler.close(who, moment)),
        Ask::Weight {
            moment,
            tenant,
            weight,
        } => DeskReply::Changed(scheduler.weight(who, moment, tenant, weight)),
        Ask::Workers { moment, count } => DeskReply::Changed(scheduler.workers(who, moment, count)),
        Ask::Withdraw { moment, request } => DeskReply::Withdrawn(scheduler.withdraw(
            who, moment, request,
        )),
    }
}
