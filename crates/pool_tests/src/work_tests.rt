//! One worker that serves one request, over a real desk.
ghost use Rattle.std.specs.Prelude.{None};

use crate::samples::{configured, ended, expect_same, expect_true, opened};
use fq_io::Clock;
use fq_memory::FixedClock;
use fq_model::event::{Act, Entry};
use rival_policies::plain::PlainChooser;
use std::alloc::Global;
use std::process::Abort;
use std::sync::Wait;
use std::sync::atomic::{AtomicU64, Ordering};
use tag_rules::chooser::Chooser;
use worker_gate::work::work;
use worker_gate::{CostRule, Counters, Gate, LoggedGate, Slice, WorkCost};

// A job that never ends, and comes to one more of work with each slice.
#[derive(Drop)]
struct Endless;

impl Gate<u64> for Endless {
    ghost course = { λ _ _. None };

    fn slice(&self, _job: &u64, k: u32, last: Counters) -> Slice {
        let counters = Counters {
            work: u64::from(k) + 1,
            items: 0,
            bytes: 0,
        };
        Slice::More(last.greater(counters))
    }
}

// A job that ends at once, with all the work that can be counted.
#[derive(Drop)]
struct Greatest;

impl Gate<u64> for Greatest {
    ghost course = { λ _ _. None };

    fn slice(&self, _job: &u64, _k: u32, last: Counters) -> Slice {
        Slice::End(Counters {
            work: u64::MAX,
            ..last
        })
    }
}

// A job of four slices. Slice k lasts until the moment 100 (k + 1).
#[derive(Drop)]
struct Lasting<'a> {
    moment: &'a AtomicU64,
}

impl<'a> Gate<u64> for Lasting<'a> {
    ghost course = { λ _ _. None };

    fn slice(&self, _job: &u64, k: u32, last: Counters) -> Slice {
        let slices = u64::from(k) + 1;
        self.moment.store(100 * slices, Ordering::SeqCst);
        let counters = last.greater(Counters {
            work: slices,
            items: 0,
            bytes: 0,
        });
        if slices < 4 {
            Slice::More(counters)
        } else {
            Slice::End(counters)
        }
    }
}

// Tells the moment until which the last slice lasted.
#[derive(Drop)]
struct SliceClock<'a> {
    moment: &'a AtomicU64,
}

impl<'a> Clock for SliceClock<'a> {
    ghost tells = { λ _ _. Unit {0} };

    fn now(&self) -> u64 {
        self.moment.load(Ordering::SeqCst)
    }
}

// The entries after one request was submitted, and its worker has served.
fn served<X: Chooser + Drop, G: Gate<u64> + Drop, K: Clock, R: Wait + Abort>(
    rt: &R,
    alloc: Global,
    entries: u32,
    gate: G,
    clock: &K,
) -> Vec<Entry> {
    let config = configured(rt, alloc, 1, 1, entries, 10);
    let (desk, mut who, worker) = opened::<X, R>(rt, alloc, config);
    expect_same(rt, desk.submit(rt, &mut who, 50, 0, 0, 5, 7), Ok(0));
    expect_same(rt, desk.close(rt, &mut who, 50), Ok(()));
    let rule = CostRule::new(WorkCost);
    let mut gate = LoggedGate::new(gate);
    let mut log = gate.log();
    let worker = work(&desk, rt, worker, &gate, &mut log, clock, &rule);
    ended(rt, alloc, desk, who, worker)
}

// Whether an entry was made, with this act.
fn is_act(entry: Option<&Entry>, wanted: Act) -> bool {
    match entry {
        Some(e) => e.act == wanted,
        None => false,
    }
}

// The entries: this number of reports of 1, 2 and so on, and the cost.
fn reported<R: Abort>(rt: &R, past: &[Entry], reports: u64, cost: u64) {
    let mut entries = past.iter();
    let begun = [
        Act::Submit {
            request: 0,
            tenant: 0,
            kind: 0,
            declared: 5,
            label: 7,
        },
        Act::Close,
        Act::Take {
            worker: 0,
            request: 0,
            estimate: 5,
        },
    ];
    for act in begun {
        expect_true(rt, is_act(entries.next(), act));
    }
    for used in 1..=reports {
        let report = Act::Report {
            worker: 0,
            request: 0,
            used,
        };
        expect_true(rt, is_act(entries.next(), report));
    }
    let done = Act::Done {
        worker: 0,
        request: 0,
        cost,
    };
    expect_true(rt, is_act(entries.next(), done));
    expect_true(rt, entries.next().is_none());
}

// The entries of a job that is served by a clock that stands still.
fn served_at_once<G: Gate<u64> + Drop, R: Wait + Abort>(
    rt: &R,
    alloc: Global,
    entries: u32,
    gate: G,
) -> Vec<Entry> {
    let clock = FixedClock::new(50);
    served::<PlainChooser, G, FixedClock, R>(rt, alloc, entries, gate, &clock)
}

#[test]
fn all_slices_with_room_for_each(rt: HostRuntime) {
    let past = served_at_once(&rt, rt.alloc(), 10004, Endless);
    reported(&rt, past.as_slice(), 9999, 10000);
}

#[test]
fn all_slices_with_room_for_some(rt: HostRuntime) {
    let past = served_at_once(&rt, rt.alloc(), 100, Endless);
    reported(&rt, past.as_slice(), 95, 10000);
}

#[test]
fn a_job_past_the_greatest_cost(rt: HostRuntime) {
    let past = served_at_once(&rt, rt.alloc(), 100, Greatest);
    reported(&rt, past.as_slice(), 0, 1000000000);
}

// The Submit, the Close and the Take, three Reports and the Done.
const MOMENTS: [u64; 7] = [50, 50, 50, 100, 200, 300, 400];

#[test]
fn each_use_is_reported_before_the_next_slice(rt: HostRuntime) {
    let moment = AtomicU64::new(50);
    let gate = Lasting { moment: &moment };
    let clock = SliceClock { moment: &moment };
    let past = served::<PlainChooser, Lasting, SliceClock, HostRuntime>(
        &rt,
        rt.alloc(),
        100,
        gate,
        &clock,
    );
    expect_same(&rt, past.len(), MOMENTS.len());
    for (entry, wanted) in past.iter().zip(&MOMENTS) {
        expect_same(&rt, entry.moment, *wanted);
    }
}
