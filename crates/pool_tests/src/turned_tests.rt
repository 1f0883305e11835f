//! Workers that are turned away.
ghost use Rattle.std.specs.Prelude.{◌≡◌, None};
ghost use Rattle.history_lock.specs.Passes.{IsOf};

use crate::samples::{
    both, configured, ended, ended_for_two, expect_same, expect_true, opened, opened_for_two, two,
};
use desk::{Desk, Worker};
use eligible_index::index::IndexChooser;
use fq_io::Clock;
use std::alloc::Global;
use std::process::Abort;
use std::sync::Wait;
use std::sync::atomic::{AtomicU64, Ordering};
use tag_rules::chooser::Chooser;
use worker_gate::work::work;
use worker_gate::{CostRule, Counters, Gate, LoggedGate, Slice, WorkCost};

// Jobs end at once.
#[derive(Drop)]
struct AtOnce;

impl Gate<u64> for AtOnce {
    ghost course = { λ _ _. None };

    fn slice(&self, _job: &u64, _k: u32, last: Counters) -> Slice {
        Slice::End(last)
    }
}

// Stands still, and counts how often it is asked.
#[derive(Drop)]
struct AskedClock {
    asked: AtomicU64,
}

impl Clock for AskedClock {
    ghost tells = { λ _ answer. answer ≡ 50 };

    fn now(&self) -> u64 {
        self.asked.fetch_add(1, Ordering::SeqCst);
        50
    }
}

// A worker serves until it is turned away. How often it asked the clock, which it does once a call.
fn serves<X: Chooser, R: Wait>(rt: &R, desk: &Desk<u64, X>, worker: Worker) -> (Worker, u64)
    requires { IsOf desk.now.lock worker.pass }
    ensures { IsOf desk.now.lock result.0.pass }
{
    let mut gate = LoggedGate::new(AtOnce);
    let mut log = gate.log();
    let clock = AskedClock {
        asked: AtomicU64::new(0),
    };
    let rule = CostRule::new(WorkCost);
    let worker = work(desk, rt, worker, &gate, &mut log, &clock, &rule);
    (worker, clock.asked.load(Ordering::SeqCst))
}

// Two jobs of a Take and a Done each, and the take that is answered Drained.
fn drained_once<X: Chooser + Drop, R: Wait + Abort>(rt: &R, alloc: Global) {
    let config = configured(rt, alloc, 1, 1, 20, 10);
    let (desk, mut who, worker) = opened::<X, R>(rt, alloc, config);
    expect_true(rt, desk.submit(rt, &mut who, 50, 0, 0, 5, 7).is_ok());
    expect_true(rt, desk.submit(rt, &mut who, 50, 0, 0, 5, 8).is_ok());
    expect_true(rt, desk.close(rt, &mut who, 50).is_ok());
    let (worker, asked) = serves(rt, &desk, worker);
    expect_same(rt, asked, 5);
    let past = ended(rt, alloc, desk, who, worker);
    expect_same(rt, past.len(), 7);
}

#[test]
fn a_drained_worker_asks_no_more(rt: HostRuntime) {
    drained_once::<IndexChooser, HostRuntime>(&rt, rt.alloc());
}

// A job waits, but the second worker is not in the pool: its take is answered Retired.
fn retired_once<X: Chooser + Drop, R: Wait + Abort>(rt: &R, alloc: Global) {
    let config = configured(rt, alloc, 2, 1, 20, 10);
    let (desk, mut zero, one, workers) = opened_for_two::<X, R>(rt, alloc, config);
    let (first, second) = both(rt, workers);
    expect_true(rt, desk.submit(rt, &mut zero, 50, 0, 0, 5, 7).is_ok());
    expect_true(rt, desk.workers(rt, &mut zero, 50, 1).is_ok());
    let (second, asked) = serves(rt, &desk, second);
    expect_same(rt, asked, 1);
    let workers = two(rt, alloc, first, second);
    let past = ended_for_two(rt, alloc, desk, zero, one, workers);
    expect_same(rt, past.len(), 2);
}

#[test]
fn a_retired_worker_asks_no_more(rt: HostRuntime) {
    retired_once::<IndexChooser, HostRuntime>(&rt, rt.alloc());
}
