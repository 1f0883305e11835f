use crate::samples::{expect_same, expect_true};
use fq_model::config::Checked;
use fq_model::event::{Call, Cause, Foreseen, ForeseenRun, Reply};
use rival_policies::plain::PlainChooser;
use sched_state::{Recent, Scheduler};
use std::alloc::Global;
use std::process::Abort;
use test_samples::sample_config;

// Two tenants share one worker, in a history of at most 12 entries.
fn short_history<R: Abort>(rt: &R, alloc: Global) -> Checked {
    let mut config = sample_config(vec![in alloc; 1, 2].expect(rt, "memory for weights"));
    config.entries = 12;
    config.check().expect(rt, "numbers in their limits")
}

fn submit(moment: u64, tenant: u32) -> Call {
    Call::Submit {
        who: 0,
        moment,
        tenant,
        kind: 0,
        declared: 5,
        label: moment,
    }
}

fn take(moment: u64) -> Call {
    Call::Take {
        who: 1,
        moment,
        worker: 0,
    }
}

fn withdraw(moment: u64) -> Call {
    Call::Withdraw {
        who: 0,
        moment,
        request: 0,
    }
}

fn done(moment: u64) -> Call {
    Call::Done {
        who: 1,
        moment,
        worker: 0,
        cost: 4,
    }
}

// Three requests come, are taken and end; for a fourth there is no room, and the room left takes a close.
fn calls() -> [Call; 12] {
    [
        submit(1, 0),
        submit(2, 1),
        take(2),
        done(6),
        take(7),
        submit(8, 1),
        done(12),
        take(12),
        take(13),
        done(16),
        submit(17, 0),
        Call::Close { who: 0, moment: 18 },
    ]
}

// Of two requests the first is withdrawn, and once more; the other one ends.
fn withdrawals() -> [Call; 7] {
    [
        submit(1, 0),
        submit(2, 1),
        withdraw(3),
        withdraw(4),
        take(5),
        done(9),
        Call::Close { who: 0, moment: 9 },
    ]
}

// Whether two replies are the same, for the kinds of replies in these tests.
fn is_same(a: Reply, b: Reply) -> bool {
    match (a, b) {
        (Reply::Request(a), Reply::Request(b)) => a == b,
        (
            Reply::Run {
                request,
                estimate,
                ..
            },
            Reply::Run {
                request: r,
                estimate: e,
                ..
            },
        ) => request == r && estimate == e,
        (Reply::Withdrawn { label }, Reply::Withdrawn { label: l }) => label == l,
        (Reply::Refused(a), Reply::Refused(b)) => a == b,
        (Reply::Accepted, Reply::Accepted) => true,
        _ => false,
    }
}

// Each call is answered as by a scheduler that keeps all, its last entries can be read, and there are this many entries
// in all.
fn expect_last<R: Abort>(rt: &R, alloc: Global, keep: u32, calls: &[Call], entries: u32) {
    let whole = Scheduler::<u64, PlainChooser>::open(alloc, short_history(rt, alloc));
    let recent = Recent::<u64, PlainChooser>::open_keeping(alloc, short_history(rt, alloc), keep);
    let (Ok(mut whole), Ok(mut recent)) = (whole, recent) else {
        panic!(rt; "no memory for schedulers")
    };
    for call in calls {
        let reply = sched_state::answer(&mut whole, *call);
        expect_true(rt, is_same(sched_state::answer(&mut recent, *call), reply));
        expect_kept(rt, &whole, &recent, keep);
    }
    expect_same(rt, recent.len(), entries);
    drop(recent);
    drop(whole);
}

// The last entries of the whole history can be read in the recent one, and no others.
fn expect_kept<R: Abort>(
    rt: &R,
    whole: &Scheduler<u64, PlainChooser>,
    recent: &Recent<u64, PlainChooser>,
    keep: u32,
) {
    let past = whole.past();
    let first = past.len().saturating_sub(keep as usize);
    expect_same(rt, recent.first_kept() as usize, first);
    for index in 0..past.len() + 1 {
        let wanted = if index < first {
            None
        } else {
            past.get(index).copied()
        };
        expect_true(rt, recent.entry(index as u64) == wanted);
    }
}

#[test]
fn none_is_kept(rt: HostRuntime) {
    expect_last(&rt, rt.alloc(), 0, &calls(), 10);
}

#[test]
fn one_is_kept(rt: HostRuntime) {
    expect_last(&rt, rt.alloc(), 1, &calls(), 10);
}

#[test]
fn four_are_kept(rt: HostRuntime) {
    expect_last(&rt, rt.alloc(), 4, &calls(), 10);
}

#[test]
fn more_are_kept_than_come(rt: HostRuntime) {
    expect_last(&rt, rt.alloc(), 100, &calls(), 10);
}

#[test]
fn one_is_withdrawn_where_two_are_kept(rt: HostRuntime) {
    expect_last(&rt, rt.alloc(), 2, &withdrawals(), 6);
}

// The second request of tenant 0 is foreseen; whether it is eligible, and whether a smaller one is.
fn is_second(foreseen: Foreseen, is_eligible: bool, has_smaller: bool) -> bool {
    match foreseen {
        Foreseen::Run(
            ForeseenRun {
                request: 1,
                tenant: 0,
                kind: 0,
                estimate: 5,
                is_eligible: eligible,
                has_smaller: smaller,
            },
        ) => (eligible, smaller) == (is_eligible, has_smaller),
        _ => false,
    }
}

// The second of two requests is eligible once its tenant's charge of 4 has passed in virtual time, from the moment 1
// on.
#[test]
fn a_worker_that_asks_what_it_would_find(rt: HostRuntime) {
    let mut recent = Recent::<u64, PlainChooser>::open_keeping(
        rt.alloc(),
        short_history(&rt, rt.alloc()),
        1,
    ).expect(&rt, "memory for a scheduler");
    expect_true(&rt, matches!(recent.foresee(1, 0, 0), Foreseen::Nothing));
    for call in [submit(1, 0), submit(1, 0), take(1), done(2)] {
        sched_state::answer(&mut recent, call);
    }
    for moment in [0, 4] {
        expect_true(&rt, is_second(recent.foresee(moment, 0, 6), false, false));
    }
    expect_true(&rt, is_second(recent.foresee(5, 0, 6), true, true));
    expect_true(&rt, is_second(recent.foresee(5, 0, 5), true, false));
    expect_true(
        &rt,
        matches!(recent.foresee(5, 1, 0), Foreseen::Refused(Cause::Worker(1))),
    );
    expect_same(&rt, recent.len(), 4);
    drop(recent);
}
