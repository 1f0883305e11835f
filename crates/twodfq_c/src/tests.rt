use crate::{
    Handle, Opening, twodfq_close, twodfq_done, twodfq_entry, twodfq_foresee, twodfq_free,
    twodfq_open, twodfq_report, twodfq_status, twodfq_submit, twodfq_take, twodfq_weight,
    twodfq_withdraw, twodfq_workers,
};
use std::fmt::Debug;
use std::process::Abort;

// Two workers, one kind, policy 2dfq, costs as declared.
const OPENING: Opening = Opening {
    workers: 2,
    kinds: 1,
    entries: 100,
    requests: 10,
    policy: 3,
    estimate: 0,
    initial: 1000,
    keep: 0,
};

// The two are equal.
fn expect_same<T: PartialEq + Debug + Drop, R: Abort>(rt: &R, told: T, wanted: T) {
    assert_eq!(rt; told, wanted);
}

#[test]
fn a_request_from_its_submit_to_its_entry(rt: HostRuntime) {
    let mut handle = Handle::empty();
    expect_same(
        &rt,
        twodfq_open(&mut handle, rt.alloc(), &OPENING, &[1, 1]),
        0,
    );
    let submitted = twodfq_submit(&mut handle, rt.alloc(), 5, 3, 1, 0, 10, 77);
    expect_same(&rt, (submitted.kind, submitted.request), (0, 0));
    let run = twodfq_take(&mut handle, rt.alloc(), 9, 4, 0);
    expect_same(&rt, (run.kind, run.request), (1, 0));
    expect_same(&rt, (run.first, run.second), (10, 77));
    expect_same(
        &rt,
        twodfq_report(&mut handle, rt.alloc(), 9, 5, 0, 6).kind,
        2,
    );
    let falling = twodfq_done(&mut handle, rt.alloc(), 9, 6, 0, 4);
    expect_same(&rt, falling.kind, 25);
    expect_same(&rt, (falling.first, falling.second), (6, 4));
    expect_same(
        &rt,
        twodfq_done(&mut handle, rt.alloc(), 9, 6, 0, 8).kind,
        2,
    );
    let done = twodfq_entry(&mut handle, rt.alloc(), 3);
    expect_same(&rt, (done.kind, done.who), (3, 9));
    expect_same(&rt, (done.moment, done.amount), (6, 8));
    expect_same(&rt, twodfq_entry(&mut handle, rt.alloc(), 4).kind, 255);
    twodfq_free(&mut handle, rt.alloc());
    expect_same(&rt, twodfq_take(&mut handle, rt.alloc(), 9, 7, 0).kind, 255);
}

// Of more weights than there may be tenants none is looked at, and the workers come first.
#[test]
fn too_many_weights(rt: HostRuntime) {
    let mut handle = Handle::empty();
    let weights = [0; 65537];
    expect_same(
        &rt,
        twodfq_open(&mut handle, rt.alloc(), &OPENING, &weights),
        17,
    );
    let workers = Opening {
        workers: 4097,
        ..OPENING
    };
    expect_same(
        &rt,
        twodfq_open(&mut handle, rt.alloc(), &workers, &weights),
        16,
    );
}

// Of two requests the first is withdrawn, and once more.
#[test]
fn a_request_is_withdrawn(rt: HostRuntime) {
    let mut handle = Handle::empty();
    expect_same(&rt, twodfq_open(&mut handle, rt.alloc(), &OPENING, &[1]), 0);
    for label in [77, 78] {
        expect_same(
            &rt,
            twodfq_submit(&mut handle, rt.alloc(), 5, 3, 0, 0, 10, label).kind,
            0,
        );
    }
    let withdrawn = twodfq_withdraw(&mut handle, rt.alloc(), 5, 4, 0);
    expect_same(&rt, (withdrawn.kind, withdrawn.second), (6, 77));
    let refused = twodfq_withdraw(&mut handle, rt.alloc(), 5, 5, 0);
    expect_same(&rt, (refused.kind, refused.request), (28, 0));
    let run = twodfq_take(&mut handle, rt.alloc(), 9, 6, 0);
    expect_same(&rt, (run.kind, run.request), (1, 1));
    let entry = twodfq_entry(&mut handle, rt.alloc(), 2);
    expect_same(&rt, (entry.kind, entry.who, entry.request), (7, 5, 0));
    twodfq_free(&mut handle, rt.alloc());
}

// Foreseen takes of each kind. With one tenant of weight 1 virtual time goes at 2 units a microsecond. The
// second request starts at 10 and has the length 10, so worker 1 of 2 may take it from 5 on.
#[test]
fn what_a_worker_would_find(rt: HostRuntime) {
    let mut handle = Handle::empty();
    expect_same(
        &rt,
        twodfq_foresee(&mut handle, rt.alloc(), 0, 0, 0).kind,
        255,
    );
    expect_same(&rt, twodfq_open(&mut handle, rt.alloc(), &OPENING, &[1]), 0);
    expect_same(
        &rt,
        twodfq_foresee(&mut handle, rt.alloc(), 0, 0, 0).kind,
        7,
    );
    let unknown = twodfq_foresee(&mut handle, rt.alloc(), 0, 2, 0);
    expect_same(&rt, (unknown.kind, unknown.first), (22, 2));
    for label in [77, 78] {
        expect_same(
            &rt,
            twodfq_submit(&mut handle, rt.alloc(), 5, 0, 0, 0, 10, label).kind,
            0,
        );
    }
    let first = twodfq_foresee(&mut handle, rt.alloc(), 0, 0, 10);
    expect_same(&rt, (first.kind, first.request), (8, 0));
    expect_same(&rt, (first.is_eligible, first.has_smaller), (1, 0));
    expect_same(&rt, twodfq_take(&mut handle, rt.alloc(), 9, 0, 0).kind, 1);
    let busy = twodfq_foresee(&mut handle, rt.alloc(), 0, 0, 0);
    expect_same(&rt, (busy.kind, busy.request), (23, 0));
    let due = twodfq_foresee(&mut handle, rt.alloc(), 3, 1, 11);
    expect_same(&rt, (due.kind, due.request), (8, 1));
    expect_same(&rt, (due.is_eligible, due.has_smaller), (1, 1));
    let early = twodfq_foresee(&mut handle, rt.alloc(), 2, 1, 11);
    expect_same(&rt, (early.kind, early.request), (8, 1));
    expect_same(&rt, (early.first, early.second), (10, 0));
    expect_same(&rt, (early.tenant, early.request_kind), (0, 0));
    expect_same(&rt, (early.is_eligible, early.has_smaller), (0, 0));
    expect_same(
        &rt,
        twodfq_workers(&mut handle, rt.alloc(), 5, 0, 1).kind,
        2,
    );
    let retired = twodfq_foresee(&mut handle, rt.alloc(), 0, 1, 0);
    expect_same(&rt, (retired.kind, retired.first), (5, 1));
    twodfq_free(&mut handle, rt.alloc());
}

// One request from its coming to its end, looked at after each call.
#[test]
fn a_request_is_watched(rt: HostRuntime) {
    let mut handle = Handle::empty();
    expect_same(&rt, twodfq_status(&mut handle, rt.alloc()).kind, 255);
    expect_same(&rt, twodfq_open(&mut handle, rt.alloc(), &OPENING, &[1]), 0);
    expect_same(
        &rt,
        twodfq_submit(&mut handle, rt.alloc(), 5, 3, 0, 0, 10, 77).kind,
        0,
    );
    let waits = twodfq_status(&mut handle, rt.alloc());
    expect_same(&rt, (waits.kind, waits.waiting, waits.running), (0, 1, 0));
    expect_same(&rt, twodfq_take(&mut handle, rt.alloc(), 9, 4, 0).kind, 1);
    let runs = twodfq_status(&mut handle, rt.alloc());
    expect_same(&rt, (runs.waiting, runs.running), (0, 1));
    expect_same(
        &rt,
        (runs.entries, runs.moment, runs.units, runs.steps),
        (2, 4, 2, 0),
    );
    twodfq_free(&mut handle, rt.alloc());
}

#[test]
fn of_two_kept_the_last_two_are_read(rt: HostRuntime) {
    let mut handle = Handle::empty();
    let mut opening = OPENING;
    opening.keep = 2;
    expect_same(
        &rt,
        twodfq_open(&mut handle, rt.alloc(), &opening, &[1, 1]),
        0,
    );
    for moment in 0..5u64 {
        let submitted = twodfq_submit(&mut handle, rt.alloc(), 5, moment, 1, 0, 10, 77);
        expect_same(&rt, submitted.kind, 0);
    }
    let gone = twodfq_entry(&mut handle, rt.alloc(), 2);
    expect_same(&rt, (gone.kind, gone.amount), (255, 3));
    expect_same(&rt, twodfq_entry(&mut handle, rt.alloc(), 3).moment, 3);
    expect_same(&rt, twodfq_entry(&mut handle, rt.alloc(), 4).moment, 4);
    expect_same(&rt, twodfq_entry(&mut handle, rt.alloc(), 5).kind, 255);
    twodfq_free(&mut handle, rt.alloc());
}

#[test]
fn changes_and_the_end(rt: HostRuntime) {
    let mut handle = Handle::empty();
    expect_same(
        &rt,
        twodfq_open(&mut handle, rt.alloc(), &OPENING, &[1, 0]),
        18,
    );
    expect_same(
        &rt,
        twodfq_open(&mut handle, rt.alloc(), &OPENING, &[1, 1]),
        0,
    );
    expect_same(
        &rt,
        twodfq_open(&mut handle, rt.alloc(), &OPENING, &[1, 1]),
        1,
    );
    expect_same(
        &rt,
        twodfq_weight(&mut handle, rt.alloc(), 0, 0, 1, 7).kind,
        2,
    );
    expect_same(
        &rt,
        twodfq_workers(&mut handle, rt.alloc(), 0, 0, 1).kind,
        2,
    );
    let retired = twodfq_take(&mut handle, rt.alloc(), 9, 0, 1);
    expect_same(&rt, retired.kind, 5);
    expect_same(&rt, retired.first, 1);
    expect_same(&rt, twodfq_take(&mut handle, rt.alloc(), 9, 0, 0).kind, 3);
    expect_same(&rt, twodfq_close(&mut handle, rt.alloc(), 0, 0).kind, 2);
    expect_same(&rt, twodfq_take(&mut handle, rt.alloc(), 9, 0, 0).kind, 4);
}

#[test]
fn the_first_cause_is_told(rt: HostRuntime) {
    let mut handle = Handle::empty();
    let mut opening = OPENING;
    expect_same(&rt, twodfq_open(&mut handle, rt.alloc(), &OPENING, &[1]), 0);
    opening.workers = 0;
    opening.kinds = 0;
    opening.policy = 5;
    opening.estimate = 3;
    expect_same(&rt, twodfq_open(&mut handle, rt.alloc(), &opening, &[0]), 1);
    twodfq_free(&mut handle, rt.alloc());
    expect_same(&rt, twodfq_open(&mut handle, rt.alloc(), &opening, &[0]), 2);
    opening.policy = 0;
    expect_same(&rt, twodfq_open(&mut handle, rt.alloc(), &opening, &[0]), 3);
    opening.estimate = 0;
    expect_same(
        &rt,
        twodfq_open(&mut handle, rt.alloc(), &opening, &[0]),
        16,
    );
    opening.workers = 1;
    expect_same(
        &rt,
        twodfq_open(&mut handle, rt.alloc(), &opening, &[0]),
        18,
    );
    opening.kinds = 1;
    expect_same(&rt, twodfq_open(&mut handle, rt.alloc(), &opening, &[1]), 0);
    twodfq_free(&mut handle, rt.alloc());
}

// Where one entry is kept the history may be long, and else it may not.
#[test]
fn a_long_history_is_not_kept_whole(rt: HostRuntime) {
    let mut handle = Handle::empty();
    let mut opening = OPENING;
    opening.entries = 4000000000;
    expect_same(
        &rt,
        twodfq_open(&mut handle, rt.alloc(), &opening, &[1]),
        21,
    );
    opening.keep = 1;
    expect_same(&rt, twodfq_open(&mut handle, rt.alloc(), &opening, &[1]), 0);
    twodfq_free(&mut handle, rt.alloc());
    opening.entries = 4000000001;
    expect_same(
        &rt,
        twodfq_open(&mut handle, rt.alloc(), &opening, &[1]),
        21,
    );
}
