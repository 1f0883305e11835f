//! A pool of one hand that watches, between the calls of a submitter.
ghost use Rattle.std.specs.Prelude.{◌≡◌, None, option_map};
ghost use Rattle.std.specs.Arc.{arc_value};
ghost use Rattle.history_lock.specs.Passes.{IsOf};
ghost use Rattle.pool_tests.specs.Watched.{IsReaderAt};

use crate::board_tests::{opened, tells};
use crate::samples::{expect_same, expect_true, one};
use desk::{Desk, Submitter, Worker};
use eligible_index::index::IndexChooser;
use fq_memory::FixedClock;
use fq_model::parts::Status;
use status_board::Reader;
use std::alloc::Global;
use std::process::Abort;
use std::sync::Wait;
use std::thread::Threads;
use tag_rules::chooser::Chooser;
use worker_gate::pool::{Hand, pool};
use worker_gate::{CostRule, Counters, Gate, LoggedGate, Slice, WorkCost};

// A gate that nobody asks.
#[derive(Drop)]
struct Unasked;

impl Gate<u64> for Unasked {
    ghost course = { λ _ _. None };

    fn slice(&self, _job: &u64, _k: u32, last: Counters) -> Slice {
        Slice::End(last)
    }
}

// The statuses that a pool of one hand reads: `times` of them, spread over `expected` entries.
fn watched<X: Chooser + Send, R: Threads + Wait + Sync + Abort>(
    rt: &R,
    alloc: Global,
    desk: &Desk<u64, X>,
    reader: Reader,
    times: u32,
    expected: u32,
) -> (Reader, Vec<Status>)
    requires { IsReaderAt desk.now.lock (option_map arc_value desk.now.board) reader }
    ensures { IsReaderAt desk.now.lock (option_map arc_value desk.now.board) result.0 }
{
    let seen = Vec::with_capacity(alloc, times as usize).expect(rt, "memory for statuses");
    let mut hands: [Hand<u64, Unasked>; 1] = [Hand::Watch {
        reader,
        left: times,
        expected,
        seen,
    }];
    let gate = LoggedGate::new(Unasked);
    let clock = FixedClock::new(50);
    let rule = CostRule::new(WorkCost);
    pool(rt, desk, hands.as_mut_slice(), &gate, &clock, &rule);
    let [hand] = hands;
    let Hand::Watch {
        reader,
        left: _,
        expected: _,
        seen,
    } = hand
    else {
        panic!(rt; "a hand that watches")
    };
    (reader, seen)
}

// Ends a desk with one reader.
fn ended<X: Chooser + Drop, R: Abort>(
    rt: &R,
    alloc: Global,
    desk: Desk<u64, X>,
    who: Submitter,
    worker: Worker,
    reader: Reader,
)
    requires reader { IsReaderAt desk.lock (option_map arc_value desk.board) reader }
    requires submitter { IsOf desk.lock who.pass × (who.pass.number ≡ 0) }
    requires worker { IsOf desk.lock worker.pass }
{
    let readers = one(rt, alloc, reader);
    let scheduler = desk
        .finish_shown(one(rt, alloc, who), one(rt, alloc, worker), readers)
        .expect(rt, "each turn was served");
    drop(scheduler);
}

// This number of statuses was read, and each has this number of waiting requests.
fn expect_waiting<R: Abort>(rt: &R, seen: &[Status], times: usize, requests: u32) {
    expect_same(rt, seen.len(), times);
    let moment = if requests == 0 { 0 } else { 5 };
    for status in seen {
        expect_true(rt, tells(*status, requests as u64, moment, 0, requests, 0));
    }
}

// The hand reads twice before each of two submits, and three times after them, where no more entries come than the last
// read is to be spread over.
fn between_submissions<X: Chooser + Drop + Send, R: Threads + Wait + Sync + Abort>(
    rt: &R,
    alloc: Global,
) {
    let (desk, reader, mut who, worker) = opened::<X, R>(rt, alloc, 10);
    let (reader, seen) = watched(rt, alloc, &desk, reader, 2, 0);
    expect_waiting(rt, seen.as_slice(), 2, 0);
    expect_true(rt, desk.submit(rt, &mut who, 5, 0, 0, 5, 7).is_ok());
    let (reader, seen) = watched(rt, alloc, &desk, reader, 2, 2);
    expect_waiting(rt, seen.as_slice(), 2, 1);
    expect_true(rt, desk.submit(rt, &mut who, 5, 0, 0, 5, 8).is_ok());
    let (reader, seen) = watched(rt, alloc, &desk, reader, 3, 100);
    expect_waiting(rt, seen.as_slice(), 3, 2);
    ended(rt, alloc, desk, who, worker, reader);
}

#[test]
fn a_watch_between_submissions(rt: HostRuntime) {
    between_submissions::<IndexChooser, HostRuntime>(&rt, rt.alloc());
}
