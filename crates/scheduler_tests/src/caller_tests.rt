use crate::samples::{expect_same, expect_true, send_away};
use fq_model::config::Checked;
use fq_model::event::{Act, Entry};
use rival_policies::plain::PlainChooser;
use sched_state::{Scheduler, Taken};
use std::alloc::Global;
use std::marker::Send;
use std::process::Abort;
use tag_rules::chooser::Chooser;
use test_samples::sample_config;

// Two tenants of the weights 1 and 2 share one worker.
fn shared_worker<R: Abort>(rt: &R, alloc: Global) -> Checked {
    let weights = vec![in alloc; 1, 2].expect(rt, "memory for weights");
    sample_config(weights)
        .check()
        .expect(rt, "numbers in their limits")
}

// A scheduler of those.
fn opened<X: Chooser, R: Abort>(rt: &R, alloc: Global) -> Scheduler<u64, X> {
    Scheduler::<u64, X>::open(alloc, shared_worker(rt, alloc)).expect(rt, "memory for a scheduler")
}

// Takes the job that waits, and ends it.
fn serve<X: Chooser, R: Abort>(rt: &R, scheduler: &mut Scheduler<u64, X>) {
    if let Taken::Run { job, .. } = scheduler.take(1, 3, 0) {
        expect_same(rt, job, 42);
        expect_same(rt, scheduler.done(1, 8, 0, 5), Ok(()));
    }
}

// Three entries of which this one is the last.
fn expect_last<R: Abort>(rt: &R, past: &[Entry], wanted: Entry) {
    expect_same(rt, past.len(), 3);
    expect_true(rt, past.last().copied() == Some(wanted));
}

// The caller that the README shows.
fn call<X: Chooser + Drop + Send, R: Abort>(rt: &R, alloc: Global) {
    let mut scheduler = opened::<X, R>(rt, alloc);
    expect_same(rt, scheduler.submit(0, 0, 1, 0, 5, 42), Ok(0));
    serve(rt, &mut scheduler);
    expect_true(rt, matches!(scheduler.take(1, 8, 0), Taken::Idle));
    let act = Act::Done {
        worker: 0,
        request: 0,
        cost: 5,
    };
    let done = Entry {
        who: 1,
        moment: 8,
        act,
    };
    expect_last(rt, scheduler.past(), done);
    send_away(scheduler);
}

#[test]
fn a_caller(rt: HostRuntime) {
    call::<PlainChooser, HostRuntime>(&rt, rt.alloc());
}

// Of two requests that come at once, that of the second tenant is taken a microsecond later: it is the longer one, and
// ends first by its weight.
fn show<X: Chooser + Drop, R: Abort>(rt: &R, alloc: Global) {
    let mut scheduler = opened::<X, R>(rt, alloc);
    expect_same(rt, scheduler.submit(0, 3, 0, 0, 5, 7), Ok(0));
    expect_same(rt, scheduler.submit(0, 3, 1, 0, 6, 8), Ok(1));
    expect_true(
        rt,
        matches!(scheduler.take(1, 4, 0), Taken::Run { request: 1, .. }),
    );
    let status = scheduler.status();
    expect_same(rt, status.entries, 3);
    expect_same(rt, status.moment, 4);
    expect_same(rt, status.vtime, 349_525); // a third of a unit, since the weights sum to 3
    expect_same(rt, status.waiting, 1);
    expect_same(rt, status.running, 1);
    expect_same(rt, scheduler.virtual_time(), 349_525);
    expect_same(rt, scheduler.pool(), 1);
    drop(scheduler);
}

#[test]
fn what_is_shown(rt: HostRuntime) {
    show::<PlainChooser, HostRuntime>(&rt, rt.alloc());
}
