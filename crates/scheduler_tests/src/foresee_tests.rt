use crate::samples::{expect_same, expect_true};
use eligible_index::index::IndexChooser;
use fitted_chooser::chooser::ProgramChooser;
use fq_model::config::{Checked, Policy};
use fq_model::event::{Call, Cause, Foreseen, ForeseenRun, Reply};
use rival_policies::plain::PlainChooser;
use sched_state::{Scheduler, answer};
use shared_order::chooser::SharedChooser;
use std::alloc::Global;
use std::process::Abort;
use tag_rules::chooser::Chooser;
use tag_rules::foresees::Foresees;
use tag_rules::head_keys::Keys;
use tag_rules::turn::{Turn, finishes_before};
use test_samples::sample_config;

// Numbers drawn one after another.
#[derive(Drop)]
struct Draw {
    state: u32,
}

impl Draw {
    // Below this bound, which is at most 65,536; of the bound 0 it is 0.
    fn below(&mut self, bound: u32) -> u32 {
        self.state = self.state.wrapping_mul(1664525).wrapping_add(1013904223);
        (self.state / 65536).checked_rem(bound).unwrap_or(0)
    }
}

// How often each answer was found.
#[derive(Clone, Copy)]
struct Tally {
    nothing: u32,
    eligible: u32,
    early: u32,
    smaller: u32,
}

// Three tenants share at most four workers.
fn shared_workers<R: Abort>(rt: &R, alloc: Global, policy: Policy) -> Checked {
    let mut config = sample_config(vec![in alloc; 1, 2, 5].expect(rt, "memory for weights"));
    config.workers = 4;
    config.entries = 1000;
    config.policy = policy;
    config.check().expect(rt, "numbers in their limits")
}

// The declared cost of this request.
fn cost_of(request: u32) -> u64 {
    (request % 7) as u64 * 12 + 1
}

// Some call at this moment, after this number of submits.
fn drawn(draw: &mut Draw, moment: u64, submits: u32) -> Call {
    match draw.below(9) {
        0 | 1 | 2 => Call::Submit {
            who: 0,
            moment,
            tenant: draw.below(3),
            kind: 0,
            declared: cost_of(submits),
            label: 0,
        },
        3 | 4 => Call::Take {
            who: 1,
            moment,
            worker: draw.below(5),
        },
        5 | 6 => Call::Done {
            who: 1,
            moment,
            worker: draw.below(4),
            cost: draw.below(80) as u64,
        },
        7 => Call::Workers {
            who: 0,
            moment,
            count: draw.below(5),
        },
        _ => Call::Withdraw {
            who: 0,
            moment,
            request: draw.below(submits),
        },
    }
}

// A worker's take, foreseen by the definitions: by the virtual time at the moment, and the keys of each head.
fn found_by_keys<X: Foresees>(
    scheduler: &Scheduler<u64, X>,
    moment: u64,
    worker: u32,
    below: u64,
) -> Foreseen {
    let config = scheduler.config();
    if worker >= config.workers() {
        return Foreseen::Refused(Cause::Worker(worker));
    }
    if let Some(row) = scheduler.running(worker) {
        return Foreseen::Refused(Cause::Busy(row.request));
    }
    let workers = scheduler.pool();
    if worker >= workers {
        return Foreseen::Retired(workers);
    }
    let turn = Turn {
        policy: config.policy(),
        workers,
        worker,
        virtual_time: scheduler.virtual_time_at(moment),
    };
    run_by_keys(scheduler, turn, below)
}

// The request of a take at this turn, if one waits.
fn run_by_keys<X: Foresees>(scheduler: &Scheduler<u64, X>, turn: Turn, below: u64) -> Foreseen {
    let mut best: Option<Head> = None;
    let mut has_smaller = false;
    for tenant in 0..scheduler.config().tenants() {
        if let Some(keys) = scheduler.keys(tenant) {
            best = Some(better(turn, best, Head { tenant, keys }));
            has_smaller = has_smaller || (turn.is_eligible(keys) && cost_of(keys.request) < below);
        }
    }
    match best {
        Some(head) => Foreseen::Run(ForeseenRun {
            request: head.keys.request,
            tenant: head.tenant,
            kind: 0,
            estimate: cost_of(head.keys.request),
            is_eligible: turn.is_eligible(head.keys),
            has_smaller,
        }),
        None => Foreseen::Nothing,
    }
}

// A tenant's head.
#[derive(Clone, Copy)]
struct Head {
    tenant: u32,
    keys: Keys,
}

// Of two heads, or one, that which is taken: an eligible one by its finish, or else the one that becomes so soonest.
fn better(turn: Turn, best: Option<Head>, head: Head) -> Head {
    match best {
        Some(first) if goes_first(turn, first.keys, head.keys) => first,
        _ => head,
    }
}

fn goes_first(turn: Turn, a: Keys, b: Keys) -> bool {
    match (turn.is_eligible(a), turn.is_eligible(b)) {
        (true, true) => finishes_before(a, b),
        (false, false) => turn.eligible_before(a, b),
        (is_eligible, _) => is_eligible,
    }
}

fn is_same_run(a: ForeseenRun, b: ForeseenRun) -> bool {
    (a.request, a.tenant, a.kind, a.estimate) == (b.request, b.tenant, b.kind, b.estimate)
        && (a.is_eligible, a.has_smaller) == (b.is_eligible, b.has_smaller)
}

fn is_same(a: Foreseen, b: Foreseen) -> bool {
    match (a, b) {
        (Foreseen::Nothing, Foreseen::Nothing) => true,
        (Foreseen::Run(a), Foreseen::Run(b)) => is_same_run(a, b),
        (Foreseen::Retired(a), Foreseen::Retired(b)) => a == b,
        (Foreseen::Refused(a), Foreseen::Refused(b)) => a == b,
        _ => false,
    }
}

// A take is answered as was foreseen.
fn agrees(foreseen: Foreseen, reply: Reply) -> bool {
    match (foreseen, reply) {
        (Foreseen::Nothing, Reply::Idle) => true,
        (
            Foreseen::Run(run),
            Reply::Run {
                request,
                estimate,
                ..
            },
        ) => run.request == request && run.estimate == estimate,
        (Foreseen::Retired(a), Reply::Retired(b)) => a == b,
        (Foreseen::Refused(a), Reply::Refused(b)) => a == b,
        _ => false,
    }
}

// The tally with one answer more.
fn counted(tally: Tally, foreseen: Foreseen) -> Tally {
    match foreseen {
        Foreseen::Nothing => Tally {
            nothing: tally.nothing.wrapping_add(1),
            ..tally
        },
        Foreseen::Run(run) => Tally {
            eligible: tally.eligible.wrapping_add(run.is_eligible as u32),
            early: tally.early.wrapping_add(!run.is_eligible as u32),
            smaller: tally.smaller.wrapping_add(run.has_smaller as u32),
            ..tally
        },
        _ => tally,
    }
}

// Asks each worker's question, and one of a worker that there is not, before, at and after this moment.
fn ask_all<X: Foresees, R: Abort>(
    rt: &R,
    scheduler: &Scheduler<u64, X>,
    moment: u64,
    tally: Tally,
) -> Tally {
    let mut tally = tally;
    for worker in 0..5 {
        for other in [
            moment.saturating_sub(3),
            moment,
            moment.saturating_add(2),
            moment.saturating_add(40),
        ] {
            let below = other.wrapping_add(worker as u64 * 20) % 80;
            let foreseen = scheduler.foresee(other, worker, below);
            let by_keys = found_by_keys(scheduler, other, worker, below);
            expect_true(rt, is_same(foreseen, by_keys));
            tally = counted(tally, foreseen);
        }
    }
    tally
}

// Makes the call; a take is answered as a question before it.
fn made<X: Foresees, R: Abort>(rt: &R, scheduler: &mut Scheduler<u64, X>, call: Call) -> Reply {
    let Call::Take { moment, worker, .. } = call else {
        return answer(scheduler, call);
    };
    let foreseen = scheduler.foresee(moment, worker, 0);
    let reply = answer(scheduler, call);
    expect_true(rt, agrees(foreseen, reply));
    reply
}

// How far the calls have come.
#[derive(Drop)]
struct Course {
    draw: Draw,
    moment: u64,
    submits: u32,
    tally: Tally,
}

// The next call.
fn next_call(course: &mut Course) -> Call {
    let passed = course.draw.below(4);
    course.moment = course.moment.saturating_add(passed as u64);
    drawn(&mut course.draw, course.moment, course.submits)
}

// A scheduler is asked all questions and then answers the call.
fn asked_and_made<X: Foresees, R: Abort>(
    rt: &R,
    scheduler: &mut Scheduler<u64, X>,
    call: Call,
    course: &mut Course,
) {
    course.tally = ask_all(rt, scheduler, course.moment, course.tally);
    if let Reply::Request(request) = made(rt, scheduler, call) {
        course.submits = request.saturating_add(1);
    }
}

// The histories of two schedulers have the same length and the same last entry.
fn expect_one_past<X: Chooser, R: Abort>(
    rt: &R,
    asked: &Scheduler<u64, X>,
    quiet: &Scheduler<u64, X>,
) {
    expect_same(rt, asked.past().len(), quiet.past().len());
    expect_same(
        rt,
        asked.past().last().copied(),
        quiet.past().last().copied(),
    );
}

// A scheduler whose workers `shared_workers` has.
fn opened<X: Chooser, R: Abort>(rt: &R, alloc: Global, policy: Policy) -> Scheduler<u64, X> {
    Scheduler::<u64, X>::open(alloc, shared_workers(rt, alloc, policy)).expect(
        rt,
        "memory for a scheduler",
    )
}

// Two schedulers answer the same calls, and only one is asked questions: both have one history.
fn expect_exact<X: Foresees + Drop, R: Abort>(rt: &R, alloc: Global, policy: Policy) -> Tally {
    let mut asked = opened::<X, R>(rt, alloc, policy);
    let mut quiet = opened::<X, R>(rt, alloc, policy);
    let mut course = Course {
        draw: Draw { state: 7 },
        moment: 0,
        submits: 0,
        tally: Tally {
            nothing: 0,
            eligible: 0,
            early: 0,
            smaller: 0,
        },
    };
    for _ in 0..100 {
        let call = next_call(&mut course);
        asked_and_made(rt, &mut asked, call, &mut course);
        answer(&mut quiet, call);
        expect_one_past(rt, &asked, &quiet);
    }
    drop(asked);
    drop(quiet);
    course.tally
}

// Under each policy the answers are exact, and under these three each of the answers comes.
fn expect_under_each<X: Foresees + Drop, R: Abort>(rt: &R, alloc: Global) {
    for policy in [Policy::Wf2q, Policy::TwoDfq, Policy::TwoDfqPlus] {
        let tally = expect_exact::<X, R>(rt, alloc, policy);
        expect_true(rt, tally.nothing > 0);
        expect_true(rt, tally.eligible > 0);
        expect_true(rt, tally.early > 0);
        expect_true(rt, tally.smaller > 0);
    }
    let by_finish = expect_exact::<X, R>(rt, alloc, Policy::Wfq);
    expect_same(rt, by_finish.early, 0);
    expect_exact::<X, R>(rt, alloc, Policy::Msf2q);
}

#[test]
fn by_a_scan(rt: HostRuntime) {
    expect_under_each::<PlainChooser, HostRuntime>(&rt, rt.alloc());
}

#[test]
fn by_trees(rt: HostRuntime) {
    expect_under_each::<IndexChooser, HostRuntime>(&rt, rt.alloc());
}

#[test]
fn by_one_order(rt: HostRuntime) {
    expect_under_each::<SharedChooser, HostRuntime>(&rt, rt.alloc());
}

#[test]
fn by_the_one_that_fits(rt: HostRuntime) {
    expect_under_each::<ProgramChooser, HostRuntime>(&rt, rt.alloc());
}
