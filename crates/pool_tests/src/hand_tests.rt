//! Two submitters and two workers that meet at one desk, each in a thread of its own.
ghost use Rattle.std.specs.Prelude.{◌≡◌, List, [], ◌∷◌, None};
ghost use Rattle.std.specs.Thread.{IsSync};
ghost use Rattle.history_lock.specs.Passes.{IsOf};
ghost use Rattle.gate_rules.specs.declared.logged_gate.Asked.{Asked};
ghost use Rattle.worker_gate.specs.declared.pool.Hand.TheVariants as hand;
ghost use Rattle.pool_tests.specs.Hired.{AreHired};

use crate::histories::{are_jobs, are_letters, are_next_jobs, count_of, makes_only};
use crate::samples::{
    both, configured, ended_for_two, expect_same, expect_true, opened_for_two, two,
};
use desk::{Desk, Submitter, Worker};
use eligible_index::index::IndexChooser;
use fq_memory::FixedClock;
use fq_model::event::{Cause, Entry};
use std::alloc::Global;
use std::collections::VecDeque;
use std::ops::Range;
use std::process::Abort;
use std::sync::Wait;
use std::sync::atomic::{AtomicU64, Ordering};
use std::thread;
use std::thread::{Threads, join_mut};
use tag_rules::chooser::Chooser;
use worker_gate::feed::feed;
use worker_gate::pool::{Hand, pool};
use worker_gate::{CostRule, Counters, Fed, Gate, LoggedGate, Row, Slice, WorkCost};

// Job 0 ends once job 1 has begun, or is marked where that takes too many turns. Each other job ends at once.
#[derive(Drop)]
struct Meeting {
    begun: AtomicU64,
    missed: AtomicU64,
}

impl Meeting {
    fn new() -> Meeting {
        Meeting {
            begun: AtomicU64::new(0),
            missed: AtomicU64::new(0),
        }
    }

    // Whether job 1 begins.
    fn begins(&self) -> bool {
        for _ in 0..100000000u64 {
            if self.begun.load(Ordering::SeqCst) == 1 {
                return true;
            }
            thread::yield_now();
        }
        false
    }
}

impl Gate<u64> for Meeting {
    ghost course = { λ _ _. None };

    fn slice(&self, job: &u64, _k: u32, last: Counters) -> Slice {
        if *job == 1 {
            self.begun.store(1, Ordering::SeqCst);
        }
        if *job == 0 && !self.begins() {
            self.missed.store(1, Ordering::SeqCst);
        }
        Slice::End(last)
    }
}

fn rows_of<R: Abort>(rt: &R, alloc: Global, jobs: Range<u64>) -> VecDeque<Row<u64>> {
    let mut rows = VecDeque::new(alloc);
    for job in jobs {
        let row = Row {
            tenant: 0,
            kind: 0,
            declared: 5,
            job,
        };
        rows.push_back(row).expect(rt, "memory for rows");
    }
    rows
}

/// The part of submitter 1, beside the hands of the pool.
#[derive(Clone, Copy)]
pub enum Aside {
    Nothing,
    // Sets the number of workers to 1 before its 20 rows, jobs 1000 and up.
    Shrink,
    // Closes after its 10 rows, jobs 1000 and up.
    Close,
}

// Does that, and says whether each of its calls was accepted.
fn step_aside<X: Chooser, R: Wait + Abort>(
    rt: &R,
    alloc: Global,
    desk: &Desk<u64, X>,
    who: &mut Submitter,
    total: u32,
    aside: Aside,
) -> bool
    requires { IsOf desk.now.lock who.old.pass }
    ensures { IsOf desk.now.lock who.new.pass }
{
    let count = match aside {
        Aside::Nothing => return true,
        Aside::Shrink => 20,
        Aside::Close => 10,
    };
    let rows = rows_of(rt, alloc, 1000..1000 + count);
    if matches!(aside, Aside::Shrink) && desk.workers(rt, who, 50, 1).is_err() {
        return false;
    }
    if let Fed::Stopped { .. } = feed(desk, rt, who, rows, total, &FixedClock::new(50)) {
        return false;
    }
    !matches!(aside, Aside::Close) || desk.close(rt, who, 50).is_ok()
}

// The hands of a pool do their parts.
fn serve<X: Chooser + Send, G: Gate<u64> + Sync, R: Threads + Wait + Sync>(
    rt: &R,
    desk: &Desk<u64, X>,
    gate: &LoggedGate<G>,
    hands: &mut [Hand<u64, G>],
)
    requires { AreHired desk.now.lock hands.old }
    ensures { AreHired desk.now.lock hands.new }
{
    let clock = FixedClock::new(50);
    pool(rt, desk, hands, gate, &clock, &CostRule::new(WorkCost));
}

// The hands of a pool do their parts, and submitter 1 does its own meanwhile.
fn side_by_side<X: Chooser + Send, G: Gate<u64> + Sync, R: Threads + Wait + Sync + Abort>(
    rt: &R,
    alloc: Global,
    desk: &Desk<u64, X>,
    who: &mut Submitter,
    total: u32,
    aside: Aside,
    gate: &LoggedGate<G>,
    hands: &mut [Hand<u64, G>],
) -> bool
    requires who { IsOf desk.now.lock who.old.pass }
    requires hands { AreHired desk.now.lock hands.old }
    ensures who { IsOf desk.now.lock who.new.pass }
    ensures hands { AreHired desk.now.lock hands.new }
{
    let (accepted, ()) = join_mut(
        rt,
        &mut || step_aside(rt, alloc, desk, who, total, aside),
        &mut ||
            requires { IsSync R.row × AreHired desk.now.lock hands.now }
            ensures { AreHired desk.entry.now.lock hands.exit.now }
        { serve(rt, desk, gate, hands) },
    );
    accepted
}

// Submitter 0, which feeds these rows, and two workers.
fn hired<G>(
    gate: &mut LoggedGate<G>,
    who: Submitter,
    rows: VecDeque<Row<u64>>,
    total: u32,
    first: Worker,
    second: Worker,
) -> [Hand<u64, G>; 3]
    ensures { result ≡ hand.Feed who rows total None ∷ hand.Work first [] ∷ hand.Work second [] ∷ [] }
{
    let feeding = Hand::Feed {
        who,
        rows,
        total,
        stopped: None,
    };
    [
        feeding,
        Hand::Work(first, gate.log()),
        Hand::Work(second, gate.log()),
    ]
}

/// The entries of a desk, which row of submitter 0 was refused, and which rows of it were left.
#[derive(Drop)]
pub struct End {
    pub past: Vec<Entry>,
    stopped: Option<(Row<u64>, Cause)>,
    rest: VecDeque<Row<u64>>,
}

// The token of a worker.
fn worker_of<G, R: Abort>(rt: &R, working: Hand<u64, G>) -> Worker
    ensures { (log : List Asked) × (working ≡ hand.Work result log) }
{
    let Hand::Work(worker, _log) = working else {
        panic!(rt; "a worker stands here")
    };
    worker
}

// Ends the desk, with the tokens of submitter 1 and of three hands.
fn dismissed<X: Chooser + Drop, G, R: Abort>(
    rt: &R,
    alloc: Global,
    desk: Desk<u64, X>,
    one: Submitter,
    hands: [Hand<u64, G>; 3],
) -> End
    requires one { IsOf desk.lock one.pass }
    requires hands { AreHired desk.lock hands }
{
    let [feeding, first, second] = hands;
    let Hand::Feed {
        who: zero,
        rows: rest,
        total: _,
        stopped,
    } = feeding
    else {
        panic!(rt; "the feed has its token")
    };
    let first = worker_of(rt, first);
    let second = worker_of(rt, second);
    let workers = two(rt, alloc, first, second);
    let past = ended_for_two(rt, alloc, desk, zero, one, workers);
    End {
        past,
        stopped,
        rest,
    }
}

/// Submitter 0 feeds jobs, two workers serve, and submitter 1 does something aside, in four threads.
pub fn served<X: Chooser + Drop + Send, G: Gate<u64> + Sync, R: Threads + Wait + Sync + Abort>(
    rt: &R,
    alloc: Global,
    gate: &mut LoggedGate<G>,
    jobs: Range<u64>,
    total: u32,
    aside: Aside,
) -> End {
    let config = configured(rt, alloc, 2, 1, 1000, 200);
    let (desk, zero, mut one, workers) = opened_for_two::<X, R>(rt, alloc, config);
    let (first, second) = both(rt, workers);
    let mut hands = hired(gate, zero, rows_of(rt, alloc, jobs), total, first, second);
    let accepted = side_by_side(
        rt,
        alloc,
        &desk,
        &mut one,
        total,
        aside,
        gate,
        hands.as_mut_slice(),
    );
    expect_true(rt, accepted);
    dismissed(rt, alloc, desk, one, hands)
}

// Both jobs were served, each by a worker of its own.
fn expect_both_served<R: Abort>(rt: &R, past: &[Entry]) {
    expect_true(rt, are_letters(past, 0, "ssc"));
    expect_true(rt, are_letters(past, 2, "td"));
    expect_true(rt, are_letters(past, 3, "td"));
    expect_same(rt, past.len(), 7);
    expect_true(rt, are_jobs(past, None, 0..2));
}

#[test]
fn two_workers_in_a_slice_at_once(rt: HostRuntime) {
    let mut gate = LoggedGate::new(Meeting::new());
    let end = served::<IndexChooser, Meeting, HostRuntime>(
        &rt,
        rt.alloc(),
        &mut gate,
        0..2,
        2,
        Aside::Nothing,
    );
    expect_same(&rt, gate.into_gate().missed.load(Ordering::SeqCst), 0);
    expect_both_served(&rt, end.past.as_slice());
}

// The first worker alone served the 20 jobs of submitter 1.
fn expect_one_serves<R: Abort>(rt: &R, past: &[Entry]) {
    expect_true(rt, are_letters(past, 1, "wssssssssssssssssssssc"));
    expect_same(rt, count_of(past, Some(2), 'd'), 20);
    expect_true(rt, are_letters(past, 3, ""));
    expect_same(rt, past.len(), 62);
    expect_true(rt, are_jobs(past, None, 1000..1020));
}

#[test]
fn one_worker_from_then_on(rt: HostRuntime) {
    let mut gate = LoggedGate::new(Meeting::new());
    let end = served::<IndexChooser, Meeting, HostRuntime>(
        &rt,
        rt.alloc(),
        &mut gate,
        0..0,
        20,
        Aside::Shrink,
    );
    expect_one_serves(&rt, end.past.as_slice());
}

// Whether the jobs of submitter 0 are these: first those that it submitted, then the refused job, then those that are
// left.
fn are_handed_in(end: &End, mut wanted: Range<u64>) -> bool {
    if !are_next_jobs(end.past.as_slice(), Some(0), &mut wanted) {
        return false;
    }
    if let Some((row, _)) = &end.stopped {
        if wanted.next() != Some(row.job) {
            return false;
        }
    }
    for row in &end.rest {
        if wanted.next() != Some(row.job) {
            return false;
        }
    }
    wanted.is_empty()
}

// Whether a row was refused because of the close, or no row is left.
fn is_stopped_by_close(end: &End) -> bool {
    match &end.stopped {
        Some((_, cause)) => *cause == Cause::Closed,
        None => end.rest.is_empty(),
    }
}

// The requests that were submitted before the close were served.
fn expect_close<R: Abort>(rt: &R, past: &[Entry]) {
    expect_true(rt, makes_only(past, 0, 's'));
    expect_true(rt, are_letters(past, 1, "ssssssssssc"));
    expect_true(rt, are_jobs(past, Some(1), 1000..1010));
    expect_same(rt, count_of(past, None, 'd'), count_of(past, None, 's'));
}

#[test]
fn a_close_in_the_midst(rt: HostRuntime) {
    let mut gate = LoggedGate::new(Meeting::new());
    let end = served::<IndexChooser, Meeting, HostRuntime>(
        &rt,
        rt.alloc(),
        &mut gate,
        100..200,
        1000,
        Aside::Close,
    );
    expect_close(&rt, end.past.as_slice());
    expect_true(&rt, are_handed_in(&end, 100..200));
    expect_true(&rt, is_stopped_by_close(&end));
}
