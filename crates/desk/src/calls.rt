//! The calls of a desk. Each waits for its turn, and takes no memory.
ghost use Rattle.std.specs.Prelude.{◌≡◌, IfErr};
ghost use Rattle.fq_model.specs.declared.event.Call.TheVariants as call;
ghost use Rattle.fq_model.specs.History.{history_of};
ghost use Rattle.history_lock.specs.Passes.{IsOf};
ghost use Rattle.sched_state.specs.Replies.{submit_reply, take_reply, change_reply, close_reply, withdraw_reply};
ghost use Rattle.desk.specs.declared.asking.DeskReply.TheVariants as replies;
ghost use Rattle.desk.specs.Asking.{HasTurned, IsChange};
ghost use Rattle.desk.specs.Staffed.{MayAsk};
ghost use Rattle.desk.specs.Tokens.{Stays, IsAnswered, IsOfWorker};
ghost use Rattle.desk.specs.Replies.{took_reply, took_pass, took_worker, TookLeft};
ghost use Rattle.desk.specs.Replies.{live_reply, done_reply, done_pass, SameRun, GoesOn};

use crate::asking::{Ask, DeskReply};
use crate::bell::Heard;
use crate::desk::DeskOf;
use crate::floor::{Crew, Floor};
use crate::refusals::{DoneRefusal, LiveRefusal, done_refusal, live_refusal};
use crate::tokens::{Running, Submitter, Took, Worker};
use fq_model::event::Cause;
use fq_model::job::Job;
use history_lock::Pass;
use sched_state::{AlreadyClosed, Refused, Taken};
use std::sync::Wait;
use tag_rules::chooser::Chooser;

// The result of a worker's take, by the scheduler's answer.
fn took<J: Job + Drop>(pass: Pass<Crew>, worker: u32, taken: Taken<J>) -> Took<J>
    requires token { IsOfWorker pass worker }
    requires left { TookLeft worker (history_of pass.mine) (take_reply J.label_of taken) }
    ensures reply { took_reply J.label_of result ≡ take_reply J.label_of taken }
    ensures same { (took_pass result ≡ pass) × (took_worker result ≡ worker) }
{
    match taken {
        Taken::Run {
            request,
            estimate,
            job,
        } => {
            let running = Running {
                pass,
                worker,
                request,
                estimate,
            };
            Took::Run(running, job)
        }
        Taken::Idle => Took::Idle(Worker { pass, worker }),
        Taken::Drained => Took::Drained(Worker { pass, worker }),
        Taken::Retired(workers) => Took::Retired(Worker { pass, worker }, workers),
        Taken::UnknownWorker(_) | Taken::Busy(_) => unreachable!(),
    }
}

impl<J: Job + Drop, X: Chooser> DeskOf<Floor<J, X>> {
    // Makes a call that changes something or is refused.
    fn change<R: Wait>(&self, rt: &R, pass: &mut Pass<Crew>, ask: Ask<J>) -> Result<(), Cause>
        requires own { IsOf self.now.lock pass.old }
        requires allowed { MayAsk self.now.lock.frame pass.old.number ask }
        requires change { IsChange ask }
        ensures stays { Stays self.now.lock pass.old pass.new }
        ensures turned { HasTurned J.label_of self.now.lock.frame pass.old pass.new ask (replies.Changed result) }
    {
        match self.lock.turn(rt, pass, ask) {
            DeskReply::Changed(result) => result,
            _ => unreachable!(),
        }
    }

    /// A request comes, and gets the next number. Refused as the scheduler refuses; the job then comes back.
    pub fn submit<R: Wait>(
        &self,
        rt: &R,
        who: &mut Submitter,
        moment: u64,
        tenant: u32,
        kind: u32,
        declared: u64,
        job: J,
    ) -> Result<u32, Refused<J>>
        requires { IsOf self.now.lock who.old.pass }
        ensures stays { Stays self.now.lock who.old.pass who.new.pass }
        ensures answers { IsAnswered self.now.lock.frame who.old.pass
            (call.Submit who.old.pass.number moment tenant kind declared (J.label_of job)) (submit_reply result)
            who.new.pass }
        ensures job_back { IfErr result (λ r. r.job ≡ job) }
    {
        let ask = Ask::Submit {
            moment,
            tenant,
            kind,
            declared,
            job,
        };
        match self.lock.turn(rt, &mut who.pass, ask) {
            DeskReply::Submitted(result) => {
                if result.is_ok() {
                    self.bell.ring_one();
                }
                result
            }
            _ => unreachable!(),
        }
    }

    /// Nothing more is submitted from here on.
    pub fn close<R: Wait>(
        &self,
        rt: &R,
        who: &mut Submitter,
        moment: u64,
    ) -> Result<(), AlreadyClosed>
        requires { IsOf self.now.lock who.old.pass }
        ensures stays { Stays self.now.lock who.old.pass who.new.pass }
        ensures answers { IsAnswered self.now.lock.frame who.old.pass
            (call.Close who.old.pass.number moment) (close_reply result) who.new.pass }
    {
        match self.lock.turn(rt, &mut who.pass, Ask::Close { moment }) {
            DeskReply::Closed(result) => {
                if result.is_ok() {
                    self.bell.ring_all();
                }
                result
            }
            _ => unreachable!(),
        }
    }

    /// The tenant has this weight from here on. Refused as Tenant, Weight or Full.
    pub fn weight<R: Wait>(
        &self,
        rt: &R,
        who: &mut Submitter,
        moment: u64,
        tenant: u32,
        weight: u32,
    ) -> Result<(), Cause>
        requires { IsOf self.now.lock who.old.pass }
        ensures stays { Stays self.now.lock who.old.pass who.new.pass }
        ensures answers { IsAnswered self.now.lock.frame who.old.pass
            (call.Weight who.old.pass.number moment tenant weight) (change_reply result) who.new.pass }
    {
        let ask = Ask::Weight {
            moment,
            tenant,
            weight,
        };
        self.change(rt, &mut who.pass, ask)
    }

    /// The pool has this number of workers from here on. Refused as Workers or Full.
    pub fn workers<R: Wait>(
        &self,
        rt: &R,
        who: &mut Submitter,
        moment: u64,
        count: u32,
    ) -> Result<(), Cause>
        requires { IsOf self.now.lock who.old.pass }
        ensures stays { Stays self.now.lock who.old.pass who.new.pass }
        ensures answers { IsAnswered self.now.lock.frame who.old.pass
            (call.Workers who.old.pass.number moment count) (change_reply result) who.new.pass }
    {
        let ask = Ask::Workers { moment, count };
        let result = self.change(rt, &mut who.pass, ask);
        if result.is_ok() {
            self.bell.ring_all();
        }
        result
    }

    /// A request that waits is withdrawn: it is never taken, and its job comes back. It may be called after a close,
    /// too. Refused as NotWaiting. It is no news for workers: none has more to take by it.
    pub fn withdraw<R: Wait>(
        &self,
        rt: &R,
        who: &mut Submitter,
        moment: u64,
        request: u32,
    ) -> Result<J, Cause>
        requires { IsOf self.now.lock who.old.pass }
        ensures stays { Stays self.now.lock who.old.pass who.new.pass }
        ensures answers { IsAnswered self.now.lock.frame who.old.pass
            (call.Withdraw who.old.pass.number moment request) (withdraw_reply J.label_of result) who.new.pass }
    {
        let ask = Ask::Withdraw { moment, request };
        match self.lock.turn(rt, &mut who.pass, ask) {
            DeskReply::Withdrawn(result) => result,
            _ => unreachable!(),
        }
    }

    /// The news so far. A worker notes it before it takes, so that it misses nothing that comes after.
    pub fn heard(&self) -> Heard {
        self.bell.heard()
    }

    /// Returns at once where there was news after this was noted, and sleeps until there is some where not. News is an
    /// accepted submit, which wakes one sleeper, and an accepted close or number of workers, which wake all. It is for
    /// a worker whose take since then was answered Idle, and that takes again once it is awake; a worker that was
    /// answered Retired would keep a wake-up from those that may take.
    pub fn await_news<R: Wait>(&self, rt: &R, heard: Heard) {
        self.bell.wait(rt, heard);
    }

    /// A worker takes its next request. It keeps its token unless it is to run one.
    pub fn take<R: Wait>(&self, rt: &R, worker: Worker, moment: u64) -> Took<J>
        requires { IsOf self.now.lock worker.pass }
        ensures stays { Stays self.now.lock worker.pass (took_pass result) }
        ensures answers { IsAnswered self.now.lock.frame worker.pass
            (call.Take worker.pass.number moment worker.worker) (took_reply J.label_of result) (took_pass result) }
        ensures worker { took_worker result ≡ worker.worker }
    {
        let Worker { mut pass, worker } = worker;
        let ask = Ask::Take { moment, worker };
        let DeskReply::Took(taken) = self.lock.turn(rt, &mut pass, ask) else {
            unreachable!()
        };
        took(pass, worker, taken)
    }

    /// The request has come to this use, in microseconds, and runs on.
    pub fn report<R: Wait>(
        &self,
        rt: &R,
        running: &mut Running,
        moment: u64,
        used: u64,
    ) -> Result<(), LiveRefusal>
        requires { IsOf self.now.lock running.old.pass }
        ensures stays { Stays self.now.lock running.old.pass running.new.pass }
        ensures answers { IsAnswered self.now.lock.frame running.old.pass
            (call.Report running.old.pass.number moment running.old.worker used) (live_reply result) running.new.pass }
        ensures run { SameRun running.old running.new }
    {
        let worker = running.worker;
        let ask = Ask::Report {
            moment,
            worker,
            used,
        };
        match self.change(rt, &mut running.pass, ask) {
            Ok(()) => Ok(()),
            Err(cause) => Err(live_refusal(cause)),
        }
    }

    /// The request has ended, and this is its measured cost, in microseconds. Where that is refused the request runs
    /// on.
    pub fn done<R: Wait>(
        &self,
        rt: &R,
        running: Running,
        moment: u64,
        cost: u64,
    ) -> Result<Worker, (Running, DoneRefusal)>
        requires { IsOf self.now.lock running.pass }
        ensures stays { Stays self.now.lock running.pass (done_pass result) }
        ensures answers { IsAnswered self.now.lock.frame running.pass
            (call.Done running.pass.number moment running.worker cost) (done_reply result) (done_pass result) }
        ensures token { GoesOn running result }
    {
        let Running {
            mut pass,
            worker,
            request,
            estimate,
        } = running;
        let ask = Ask::Done {
            moment,
            worker,
            cost,
        };
        match self.change(rt, &mut pass, ask) {
            Ok(()) => Ok(Worker { pass, worker }),
            Err(cause) => {
                let running = Running {
                    pass,
                    worker,
                    request,
                    estimate,
                };
                Err((running, done_refusal(cause)))
            }
        }
    }
}
