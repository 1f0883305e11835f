//! Workers that sleep while nothing waits, and are woken.
ghost use Rattle.std.specs.Prelude.{◌≡◌, None, IfSome};
ghost use Rattle.history_lock.specs.Passes.{IsOf};

use crate::samples::{configured, ended, expect_same_at, expect_true, opened};
use desk::{Desk, Submitter, Worker};
use eligible_index::index::IndexChooser;
use fq_io::Clock;
use std::alloc::Global;
use std::fs::Files;
use std::process::Abort;
use std::sync::Wait;
use std::sync::atomic::{AtomicU64, Ordering};
use std::thread::{Threads, join_mut};
use std::time::{Duration, Instant};
use std::{fs, thread, time};
use tag_rules::chooser::Chooser;
use worker_gate::work::work;
use worker_gate::{CostRule, Counters, Gate, LoggedGate, Slice, SliceLog, WorkCost};

// Counts the jobs that it runs. Each ends at once.
#[derive(Drop)]
struct CountingGate<'a> {
    run: &'a AtomicU64,
}

impl<'a> Gate<u64> for CountingGate<'a> {
    ghost course = { λ _ _. None };

    fn slice(&self, _job: &u64, _k: u32, last: Counters) -> Slice {
        self.run.fetch_add(1, Ordering::SeqCst);
        Slice::End(last)
    }
}

// Stands still, and counts how often it is asked. It does not answer before it is opened.
#[derive(Drop)]
struct CountingClock {
    asked: AtomicU64,
    opened: AtomicU64,
}

impl Clock for CountingClock {
    ghost tells = { λ _ answer. answer ≡ 50 };

    fn now(&self) -> u64 {
        self.asked.fetch_add(1, Ordering::SeqCst);
        for _ in 0..100000000u64 {
            if self.opened.load(Ordering::SeqCst) == 1 {
                break;
            }
            thread::yield_now();
        }
        50
    }
}

// Whether this much time has passed, in seconds.
fn has_passed<O: time::Clock>(os: &O, start: Option<Instant>, seconds: u64) -> bool {
    let Some(start) = start else {
        return true;
    };
    match start.elapsed(os) {
        Ok(passed) => passed.as_secs() >= seconds,
        Err(_) => true,
    }
}

// Whether a count comes to this number before ten seconds have passed.
fn comes_to<O: time::Clock>(os: &O, count: &AtomicU64, wanted: u64) -> bool {
    let start = Instant::now(os).ok();
    for _ in 0..u64::MAX {
        if count.load(Ordering::SeqCst) >= wanted {
            return true;
        }
        if has_passed(os, start, 10) {
            break;
        }
        thread::yield_now();
    }
    false
}

// The processor time that this process has had, in ticks of the system, of which a second has 100.
fn ticks<O: Files + Alloc>(os: &O) -> Option<u64> {
    let text = fs::read_to_string(os, "/proc/self/stat").ok()?;
    let (_, rest) = text.as_str().rsplit_once(')')?;
    let mut fields = rest.split_whitespace().skip(11);
    let user: u64 = fields.next()?.parse().ok()?;
    let system: u64 = fields.next()?.parse().ok()?;
    user.checked_add(system)
}

// The submitter's part while a worker serves.
#[derive(Clone, Copy)]
enum Part {
    // Submits one job, and leaves the worker idle for a second once that has run.
    Rest,
    // Submits one job after another for a second, each as soon as the one before has begun to run.
    Rounds,
    // Rings where nothing waits, while the worker asks the clock before its first take: after it has noted the news.
    Ring,
}

// The submitter's record: whether all came in time, which is each job, or the next take; and how often the clock was
// asked and how many ticks of the processor were used in the second of rest, or the greatest number where unknown.
#[derive(Clone, Copy)]
struct Seen {
    in_time: bool,
    asked: u64,
    ticks: u64,
}

// Submits a job, and says whether it comes to run in time as job number `count`.
fn runs_next<X: Chooser, R: Wait, O: time::Clock>(
    rt: &R,
    os: &O,
    desk: &Desk<u64, X>,
    who: &mut Submitter,
    run: &AtomicU64,
    count: u64,
) -> bool
    requires { IsOf desk.now.lock who.old.pass }
    ensures own { IsOf desk.now.lock who.new.pass }
    ensures number { who.new.pass.number ≡ who.old.pass.number }
{
    desk.submit(rt, who, 50, 0, 0, 5, count).is_ok() && comes_to(os, run, count)
}

// Leaves the worker idle for a second.
fn rest<O: time::Clock + Files + Alloc>(os: &O, clock: &CountingClock) -> Seen {
    thread::sleep(os, Duration::from_millis(100));
    let asked = clock.asked.load(Ordering::SeqCst);
    let before = ticks(os);
    thread::sleep(os, Duration::from_secs(1));
    let used = match (before, ticks(os)) {
        (Some(before), Some(after)) => after.saturating_sub(before),
        _ => u64::MAX,
    };
    Seen {
        in_time: true,
        asked: clock.asked.load(Ordering::SeqCst).saturating_sub(asked),
        ticks: used,
    }
}

// Submits one job after another, and says whether each came to run in time.
fn rounds<X: Chooser, R: Wait, O: time::Clock>(
    rt: &R,
    os: &O,
    desk: &Desk<u64, X>,
    who: &mut Submitter,
    run: &AtomicU64,
) -> bool
    requires { IsOf desk.now.lock who.old.pass }
    ensures own { IsOf desk.now.lock who.new.pass }
    ensures number { who.new.pass.number ≡ who.old.pass.number }
{
    let start = Instant::now(os).ok();
    for count in 1..30000u64 {
        if !runs_next(rt, os, desk, who, run, count) {
            return false;
        }
        if has_passed(os, start, 1) {
            break;
        }
    }
    true
}

// Rings in the midst, and says whether the next take comes in time.
fn ring<X: Chooser, R: Wait, O: time::Clock>(
    rt: &R,
    os: &O,
    desk: &Desk<u64, X>,
    who: &mut Submitter,
    clock: &CountingClock,
) -> bool
    requires { IsOf desk.now.lock who.old.pass }
    ensures own { IsOf desk.now.lock who.new.pass }
    ensures number { who.new.pass.number ≡ who.old.pass.number }
{
    let asks = comes_to(os, &clock.asked, 1);
    let rung = desk.workers(rt, who, 50, 1).is_ok();
    clock.opened.store(1, Ordering::SeqCst);
    asks && rung && comes_to(os, &clock.asked, 2)
}

// Does its part and closes. A worker that sleeps on then would be waited for without end, so all ends here.
fn submits<X: Chooser, R: Wait + Abort, O: time::Clock + Files + Alloc>(
    rt: &R,
    os: &O,
    desk: &Desk<u64, X>,
    who: &mut Submitter,
    run: &AtomicU64,
    clock: &CountingClock,
    through: &AtomicU64,
    part: Part,
) -> Seen
    requires { IsOf desk.now.lock who.old.pass }
    ensures own { IsOf desk.now.lock who.new.pass }
    ensures number { who.new.pass.number ≡ who.old.pass.number }
{
    if !matches!(part, Part::Ring) {
        clock.opened.store(1, Ordering::SeqCst);
    }
    let idle = Seen {
        in_time: true,
        asked: 0,
        ticks: 0,
    };
    let seen = match part {
        Part::Rest => {
            let in_time = runs_next(rt, os, desk, who, run, 1);
            Seen {
                in_time,
                ..rest(os, clock)
            }
        }
        Part::Rounds => Seen {
            in_time: rounds(rt, os, desk, who, run),
            ..idle
        },
        Part::Ring => Seen {
            in_time: ring(rt, os, desk, who, clock),
            ..idle
        },
    };
    expect_true(rt, desk.close(rt, who, 50).is_ok());
    expect_same_at(rt, "the worker's end", comes_to(os, through, 1), true);
    seen
}

// A worker serves, and notes that it is through.
fn serves<'a, X: Chooser, R: Wait>(
    rt: &R,
    desk: &Desk<u64, X>,
    place: &mut Option<Worker>,
    gate: &LoggedGate<CountingGate<'a>>,
    log: &mut SliceLog<CountingGate<'a>>,
    clock: &CountingClock,
    through: &AtomicU64,
)
    requires { IfSome place.old (λ w. IsOf desk.now.lock w.pass) }
    ensures { IfSome place.new (λ w. IsOf desk.now.lock w.pass) }
{
    let Some(worker) = place.take() else {
        return;
    };
    let rule = CostRule::new(WorkCost);
    let back = place.replace(work(desk, rt, worker, gate, log, clock, &rule));
    let None = back else { unreachable!() };
    through.store(1, Ordering::SeqCst);
}

// The submitter and the worker at once.
fn beside<'a, X: Chooser + Send, R: Threads + Wait + Sync + Abort, O: time::Clock + Files + Alloc>(
    rt: &R,
    os: &O,
    desk: &Desk<u64, X>,
    who: &mut Submitter,
    place: &mut Option<Worker>,
    gate: &mut LoggedGate<CountingGate<'a>>,
    run: &AtomicU64,
    part: Part,
) -> Seen
    requires own { IsOf desk.now.lock who.old.pass }
    requires worker { IfSome place.old (λ w. IsOf desk.now.lock w.pass) }
    ensures own { IsOf desk.now.lock who.new.pass }
    ensures number { who.new.pass.number ≡ who.old.pass.number }
    ensures worker { IfSome place.new (λ w. IsOf desk.now.lock w.pass) }
{
    let mut log = gate.log();
    let clock = CountingClock {
        asked: AtomicU64::new(0),
        opened: AtomicU64::new(0),
    };
    let through = AtomicU64::new(0);
    let ((), seen) = join_mut(
        rt,
        &mut || serves(rt, desk, place, gate, &mut log, &clock, &through),
        &mut || submits(rt, os, desk, who, run, &clock, &through, part),
    );
    seen
}

// The record of the submitter at a desk of one worker.
fn watched<
    X: Chooser + Drop + Send,
    R: Threads + Wait + Sync + Abort,
    O: time::Clock + Files + Alloc,
>(rt: &R, os: &O, alloc: Global, part: Part) -> Seen {
    let config = configured(rt, alloc, 1, 1, 100010, 10);
    let (desk, mut who, worker) = opened::<X, R>(rt, alloc, config);
    let run = AtomicU64::new(0);
    let mut gate = LoggedGate::new(CountingGate { run: &run });
    let mut place = Some(worker);
    let seen = beside(rt, os, &desk, &mut who, &mut place, &mut gate, &run, part);
    let worker = place.expect(rt, "the worker has its token");
    let past = ended(rt, alloc, desk, who, worker);
    expect_true(rt, !past.is_empty());
    seen
}

#[test]
fn an_idle_worker_sleeps(rt: HostRuntime) {
    let seen = watched::<IndexChooser, HostRuntime, HostRuntime>(&rt, &rt, rt.alloc(), Part::Rest);
    expect_true(&rt, seen.in_time);
    assert!(rt; seen.asked <= 1, "the clock was asked {} times", seen.asked);
    assert!(rt; seen.ticks <= 5, "{} ticks were used", seen.ticks);
}

#[test]
fn jobs_that_find_the_worker_idle(rt: HostRuntime) {
    let seen = watched::<IndexChooser, HostRuntime, HostRuntime>(
        &rt,
        &rt,
        rt.alloc(),
        Part::Rounds,
    );
    expect_true(&rt, seen.in_time);
}

// The worker's take is answered Idle, and it takes again at once, since there was news.
#[test]
fn no_ring_is_lost(rt: HostRuntime) {
    let seen = watched::<IndexChooser, HostRuntime, HostRuntime>(&rt, &rt, rt.alloc(), Part::Ring);
    expect_true(&rt, seen.in_time);
}
