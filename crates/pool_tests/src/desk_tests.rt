ghost use Rattle.std.specs.Prelude.{◌≡◌, IfSome};
ghost use Rattle.history_lock.specs.Passes.{IsOf};
ghost use Rattle.desk.specs.Replies.{took_pass};

use crate::histories::{are_callers, are_jobs, are_moments};
use crate::samples::{
    configured, ended, ended_for_two, expect_same, expect_true, opened, opened_for_two,
};
use desk::{Desk, DoneRefusal, LiveRefusal, Running, Submitter, Took, Worker};
use eligible_index::index::IndexChooser;
use fq_model::event::{Cause, Entry, Foreseen, ForeseenRun};
use sched_state::{AlreadyClosed, Refused};
use std::alloc::Global;
use std::process::Abort;
use std::sync::Wait;
use std::thread::{Threads, join_mut};
use tag_rules::chooser::Chooser;
use tag_rules::foresees::Foresees;

// Submits a job that is declared to cost 5.
fn submit<X: Chooser, R: Wait>(
    rt: &R,
    desk: &Desk<u64, X>,
    who: &mut Submitter,
    moment: u64,
    job: u64,
) -> Result<u32, Refused<u64>>
    requires { IsOf desk.now.lock who.old.pass }
    ensures own { IsOf desk.now.lock who.new.pass }
    ensures number { who.new.pass.number ≡ who.old.pass.number }
{
    desk.submit(rt, who, moment, 0, 0, 5, job)
}

// Takes a request that waits, and its job.
fn taken_now<X: Chooser, R: Wait + Abort>(
    rt: &R,
    desk: &Desk<u64, X>,
    worker: Worker,
    moment: u64,
) -> (Running, u64)
    requires { IsOf desk.now.lock worker.pass }
    ensures { IsOf desk.now.lock result.0.pass }
{
    let took = desk.take(rt, worker, moment);
    let Took::Run(running, job) = took else {
        panic!(rt; "a request waits")
    };
    (running, job)
}

// Ends a request at a cost that is accepted.
fn done<X: Chooser, R: Wait + Abort>(
    rt: &R,
    desk: &Desk<u64, X>,
    running: Running,
    moment: u64,
    cost: u64,
) -> Worker
    requires { IsOf desk.now.lock running.pass }
    ensures { IsOf desk.now.lock result.pass }
{
    let done = desk.done(rt, running, moment, cost);
    let Ok(worker) = done else {
        panic!(rt; "a cost that is not below the last use")
    };
    worker
}

// Two reports of a request, the second below the first, and two costs, the first below the last use.
fn done_after_falling<X: Chooser, R: Wait + Abort>(
    rt: &R,
    desk: &Desk<u64, X>,
    mut running: Running,
) -> Worker
    requires { IsOf desk.now.lock running.pass }
    ensures { IsOf desk.now.lock result.pass }
{
    expect_same(rt, desk.report(rt, &mut running, 50, 7), Ok(()));
    let falling = LiveRefusal::Falling { last: 7, given: 6 };
    expect_same(rt, desk.report(rt, &mut running, 50, 6), Err(falling));
    let refused = desk.done(rt, running, 50, 6);
    let Err((running, cause)) = refused else {
        panic!(rt; "a cost below the last use")
    };
    expect_same(rt, cause, DoneRefusal::Falling { last: 7, given: 6 });
    done(rt, desk, running, 50, 7)
}

// Closes twice, and submits once more.
fn closed<X: Chooser, R: Wait + Abort>(rt: &R, desk: &Desk<u64, X>, who: &mut Submitter)
    requires { IsOf desk.now.lock who.old.pass }
    ensures own { IsOf desk.now.lock who.new.pass }
    ensures number { who.new.pass.number ≡ who.old.pass.number }
{
    expect_same(rt, desk.close(rt, who, 50), Ok(()));
    expect_same(rt, desk.close(rt, who, 50), Err(AlreadyClosed));
    let refused = Refused {
        job: 8,
        cause: Cause::Closed,
    };
    expect_same(rt, submit(rt, desk, who, 50, 8), Err(refused));
}

// Asks for work where nothing waits.
fn idle<X: Chooser, R: Wait + Abort>(rt: &R, desk: &Desk<u64, X>, worker: Worker) -> Worker
    requires { IsOf desk.now.lock worker.pass }
    ensures { IsOf desk.now.lock result.pass }
{
    let took = desk.take(rt, worker, 50);
    let Took::Idle(worker) = took else {
        panic!(rt; "nothing waits")
    };
    worker
}

// Asks for work where nothing waits and nothing will come.
fn drained<X: Chooser, R: Wait + Abort>(rt: &R, desk: &Desk<u64, X>, worker: Worker) -> Worker
    requires { IsOf desk.now.lock worker.pass }
    ensures { IsOf desk.now.lock result.pass }
{
    let took = desk.take(rt, worker, 50);
    let Took::Drained(worker) = took else {
        panic!(rt; "nothing will come")
    };
    worker
}

// A desk of one worker, with room for 10 requests and 1,000 entries.
fn small<X: Chooser + Drop, R: Abort>(rt: &R, alloc: Global) -> (Desk<u64, X>, Submitter, Worker)
    ensures submitter { IsOf result.0.lock result.1.pass × (result.1.pass.number ≡ 0) }
    ensures worker { IsOf result.0.lock result.2.pass }
{
    opened(rt, alloc, configured(rt, alloc, 1, 1, 1000, 10))
}

// A request is submitted, taken and ended.
fn one_job<X: Chooser, R: Wait + Abort>(
    rt: &R,
    desk: &Desk<u64, X>,
    who: &mut Submitter,
    worker: Worker,
) -> Worker
    requires own { IsOf desk.now.lock who.old.pass }
    requires worker { IsOf desk.now.lock worker.pass }
    ensures own { IsOf desk.now.lock who.new.pass }
    ensures number { who.new.pass.number ≡ who.old.pass.number }
    ensures worker { IsOf desk.now.lock result.pass }
{
    expect_same(rt, submit(rt, desk, who, 50, 7), Ok(0));
    let (running, job) = taken_now(rt, desk, worker, 50);
    expect_same(
        rt,
        (job, running.request(), running.estimate(), running.worker()),
        (7, 0, 5, 0),
    );
    done_after_falling(rt, desk, running)
}

// A desk's entries after one job and a close; a worker takes before the close and after it.
fn job_and_close<X: Chooser + Drop, R: Wait + Abort>(rt: &R, alloc: Global) -> Vec<Entry> {
    let (desk, mut who, worker) = small::<X, R>(rt, alloc);
    let worker = one_job(rt, &desk, &mut who, worker);
    let worker = idle(rt, &desk, worker);
    closed(rt, &desk, &mut who);
    let worker = drained(rt, &desk, worker);
    ended(rt, alloc, desk, who, worker)
}

#[test]
fn a_job_from_its_submission_to_the_end(rt: HostRuntime) {
    let past = job_and_close::<IndexChooser, HostRuntime>(&rt, rt.alloc());
    expect_true(&rt, are_callers(past.as_slice(), &[0, 1, 1, 1, 0]));
}

// A desk's entries after two jobs came and the first was withdrawn, and once more; a worker runs the other.
fn one_withdrawn<X: Chooser + Drop, R: Wait + Abort>(rt: &R, alloc: Global) -> Vec<Entry> {
    let (desk, mut who, worker) = small::<X, R>(rt, alloc);
    expect_same(rt, submit(rt, &desk, &mut who, 50, 7), Ok(0));
    expect_same(rt, submit(rt, &desk, &mut who, 50, 8), Ok(1));
    expect_same(rt, desk.withdraw(rt, &mut who, 50, 0), Ok(7));
    expect_same(
        rt,
        desk.withdraw(rt, &mut who, 50, 0),
        Err(Cause::NotWaiting(0)),
    );
    let (running, job) = taken_now(rt, &desk, worker, 50);
    expect_same(rt, (job, running.request()), (8, 1));
    let worker = done(rt, &desk, running, 50, 5);
    ended(rt, alloc, desk, who, worker)
}

#[test]
fn a_job_that_is_withdrawn(rt: HostRuntime) {
    let past = one_withdrawn::<IndexChooser, HostRuntime>(&rt, rt.alloc());
    expect_true(&rt, are_callers(past.as_slice(), &[0, 0, 0, 1, 1]));
}

// A take of this request is foreseen, at an estimate of 5; whether it is eligible, and whether a smaller one is.
fn is_foreseen(foreseen: Foreseen, number: u32, is_eligible: bool, has_smaller: bool) -> bool {
    match foreseen {
        Foreseen::Run(
            ForeseenRun {
                request,
                estimate: 5,
                is_eligible: eligible,
                has_smaller: smaller,
                ..
            },
        ) => (request, eligible, smaller) == (number, is_eligible, has_smaller),
        _ => false,
    }
}

// A desk's entries after a worker's take was foreseen: where nothing waits, where two requests do, and once the first
// has ended, a microsecond before the second is eligible and then.
fn questions<X: Foresees + Drop, R: Wait + Abort>(rt: &R, alloc: Global) -> Vec<Entry> {
    let (desk, mut who, mut worker) = small::<X, R>(rt, alloc);
    expect_true(
        rt,
        matches!(desk.foresee(rt, &mut worker, 50, 0), Foreseen::Nothing),
    );
    expect_same(rt, submit(rt, &desk, &mut who, 50, 7), Ok(0));
    expect_same(rt, submit(rt, &desk, &mut who, 50, 8), Ok(1));
    let first = desk.foresee(rt, &mut worker, 50, 5);
    expect_true(rt, is_foreseen(first, 0, true, false));
    let (running, _job) = taken_now(rt, &desk, worker, 50);
    let mut worker = done(rt, &desk, running, 50, 5);
    let early = desk.foresee(rt, &mut worker, 54, 6);
    expect_true(rt, is_foreseen(early, 1, false, false));
    let second = desk.foresee(rt, &mut worker, 55, 6);
    expect_true(rt, is_foreseen(second, 1, true, true));
    ended(rt, alloc, desk, who, worker)
}

#[test]
fn a_worker_that_asks_what_it_would_find(rt: HostRuntime) {
    let past = questions::<IndexChooser, HostRuntime>(&rt, rt.alloc());
    expect_true(&rt, are_callers(past.as_slice(), &[0, 0, 1, 1]));
}

// A desk's entries after calls at 50, at an earlier moment, at the last one that can be named, and at 0.
fn calls_out_of_order<X: Chooser + Drop, R: Wait + Abort>(rt: &R, alloc: Global) -> Vec<Entry> {
    let (desk, mut who, worker) = small::<X, R>(rt, alloc);
    expect_same(rt, submit(rt, &desk, &mut who, 50, 7), Ok(0));
    expect_same(rt, submit(rt, &desk, &mut who, 40, 8), Ok(1));
    let (running, _job) = taken_now(rt, &desk, worker, u64::MAX);
    let worker = done(rt, &desk, running, 0, 5);
    ended(rt, alloc, desk, who, worker)
}

#[test]
fn moments_below_the_last_and_above_the_greatest(rt: HostRuntime) {
    let past = calls_out_of_order::<IndexChooser, HostRuntime>(&rt, rt.alloc());
    let wanted = [50, 50, 1000000000000000, 1000000000000000];
    expect_true(&rt, are_moments(past.as_slice(), &wanted));
}

// A worker takes until its take isn't answered Idle, and sleeps between.
fn taken<X: Chooser, R: Wait>(
    rt: &R,
    desk: &Desk<u64, X>,
    place: &mut Option<Worker>,
) -> Option<Took<u64>>
    requires { IfSome place.old (λ w. IsOf desk.now.lock w.pass) }
    ensures { IfSome result (λ t. IsOf desk.now.lock (took_pass t)) }
{
    let mut worker = place.take()?;
    for _ in rt.forever() {
        let heard = desk.heard();
        match desk.take(rt, worker, 50) {
            Took::Idle(idle) => {
                desk.await_news(rt, heard);
                worker = idle;
            }
            took => return Some(took),
        }
    }
    unreachable!()
}

// The answer to the take of a worker that sleeps until this thread submits a request.
fn woken<X: Chooser + Send, R: Threads + Wait + Sync + Abort>(
    rt: &R,
    desk: &Desk<u64, X>,
    who: &mut Submitter,
    worker: Worker,
) -> Option<Took<u64>>
    requires own { IsOf desk.now.lock who.old.pass }
    requires worker { IsOf desk.now.lock worker.pass }
    ensures own { IsOf desk.now.lock who.new.pass }
    ensures number { who.new.pass.number ≡ who.old.pass.number }
    ensures worker { IfSome result (λ t. IsOf desk.now.lock (took_pass t)) }
{
    let mut place = Some(worker);
    let (took, told) = join_mut(
        rt,
        &mut || taken(rt, desk, &mut place),
        &mut || submit(rt, desk, who, 50, 7),
    );
    expect_same(rt, told, Ok(0));
    let None = place else {
        panic!(rt; "the worker has taken")
    };
    took
}

// A desk's entries after a worker slept, took the request that came and ended it.
fn slept<X: Chooser + Drop + Send, R: Threads + Wait + Sync + Abort>(
    rt: &R,
    alloc: Global,
) -> Vec<Entry> {
    let (desk, mut who, worker) = small::<X, R>(rt, alloc);
    let took = woken(rt, &desk, &mut who, worker);
    let Some(Took::Run(running, job)) = took else {
        panic!(rt; "a request came")
    };
    expect_same(rt, (job, running.request()), (7, 0));
    let worker = done(rt, &desk, running, 50, 5);
    ended(rt, alloc, desk, who, worker)
}

#[test]
fn a_worker_that_sleeps_until_a_request_comes(rt: HostRuntime) {
    let past = slept::<IndexChooser, HostRuntime>(&rt, rt.alloc());
    expect_true(&rt, are_callers(past.as_slice(), &[0, 1, 1]));
}

// Submits 50 jobs, with numbers from 1,000 times the caller's own on, and notes in its bits which of the request
// numbers below 100 they get.
fn fifty<X: Chooser, R: Wait>(rt: &R, desk: &Desk<u64, X>, who: &mut Submitter) -> u128
    requires { IsOf desk.now.lock who.old.pass }
    ensures own { IsOf desk.now.lock who.new.pass }
    ensures number { who.new.pass.number ≡ who.old.pass.number }
{
    let mut told = 0;
    let from = who.number() as u64 * 1000;
    for job in from..from + 50 {
        if let Ok(request) = submit(rt, desk, who, 50, job) {
            if request < 100 {
                told |= 1u128 << request;
            }
        }
    }
    told
}

// Each of two submitters submits 50 jobs, in a thread of its own.
fn fifty_each<X: Chooser + Send, R: Threads + Wait + Sync + Abort>(
    rt: &R,
    desk: &Desk<u64, X>,
    zero: &mut Submitter,
    one: &mut Submitter,
)
    requires zero { IsOf desk.now.lock zero.old.pass }
    requires one { IsOf desk.now.lock one.old.pass }
    ensures zero { IsOf desk.now.lock zero.new.pass × (zero.new.pass.number ≡ zero.old.pass.number) }
    ensures one { IsOf desk.now.lock one.new.pass }
{
    let (a, b) = join_mut(
        rt,
        &mut || fifty(rt, desk, zero),
        &mut || fifty(rt, desk, one),
    );
    expect_same(rt, (a & b, a | b), (0, (1 << 100) - 1));
}

// A desk's entries after that.
fn hundred<X: Chooser + Drop + Send, R: Threads + Wait + Sync + Abort>(
    rt: &R,
    alloc: Global,
) -> Vec<Entry> {
    let config = configured(rt, alloc, 1, 1, 1000, 100);
    let (desk, mut zero, mut one, workers) = opened_for_two::<X, R>(rt, alloc, config);
    fifty_each(rt, &desk, &mut zero, &mut one);
    ended_for_two(rt, alloc, desk, zero, one, workers)
}

#[test]
fn two_submitters_in_two_threads(rt: HostRuntime) {
    let past = hundred::<IndexChooser, HostRuntime>(&rt, rt.alloc());
    expect_same(&rt, past.len(), 100);
    expect_true(&rt, are_jobs(past.as_slice(), Some(0), 0..50));
    expect_true(&rt, are_jobs(past.as_slice(), Some(1), 1000..1050));
}
