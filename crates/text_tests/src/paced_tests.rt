//! Scripts under 2DFQ+ that were worked by hand. Virtual time rises with the clock, but not above the greatest finish
//! at which a request was taken (the cap); and a take whose request is not eligible lifts it to that request's eligible
//! key. Starts, finishes, keys and virtual time are in units.
use crate::rows::{expect_each, told};

// Two workers that serve two tenants of weight 1: virtual time rises by 2 units a microsecond while one tenant is
// active, and by 1 while both are.
const TWO_WORKERS: &str =
    "script 1\nconfig 2 2dfq+ declared 1000 100 10\ntenant a 1\ntenant b 1\nkind get\n";

// Worker 1 takes a head that starts at 4, is 4 long, and so is eligible for it from 2 on: a lift.
#[test]
fn lifted(rt: HostRuntime) {
    let rows = [
        told("submit 0 0 0 0 4 1", "request 0", 0),
        told("submit 0 0 0 0 4 2", "request 1", 0),
        told("submit 0 0 0 0 4 3", "request 2", 0),
        told("take 10 0 0", "run 0 4 1", 0),
        told("take 11 0 1", "run 1 4 2", 2),
        // b starts at 2; a has been charged 8
        told("submit 1 0 1 0 4 4", "request 3", 2),
        told("submit 1 0 1 0 4 5", "request 4", 2),
        told("done 10 2 0 4", "ok", 4),
        // b is eligible, so that a, which is not before 8, lifts nothing
        told("take 10 2 0", "run 3 4 4", 4),
        told("done 11 2 1 4", "ok", 4),
        // b starts at 6, from 4 on for worker 1, a at 8, from 6 on
        told("take 11 2 1", "run 4 4 5", 4),
    ];
    expect_each(&rt, rt.alloc(), TWO_WORKERS, &rows);
}

// A request that is charged 2 runs for 10 microseconds. By the clock it would be 20 then, but the cap is 2.
#[test]
fn capped(rt: HostRuntime) {
    let rows = [
        told("submit 0 0 0 0 2 1", "request 0", 0),
        told("submit 0 0 0 0 2 2", "request 1", 0),
        told("take 10 0 0", "run 0 2 1", 0),
        told("done 10 10 0 2", "ok", 2),
        // b starts at 2, as a does, and finishes at 3, before a at 4
        told("submit 1 10 1 0 1 3", "request 2", 2),
        told("take 10 10 0", "run 2 1 3", 2),
        told("take 11 10 1", "run 1 2 2", 2),
        // the cap is 4 now: 2 + 1 is below, and 3 + 2 * 2 is above
        told("done 10 11 0 1", "ok", 3),
        told("take 10 12 0", "idle", 3),
        told("done 11 13 1 2", "ok", 4),
    ];
    expect_each(&rt, rt.alloc(), TWO_WORKERS, &rows);
}

// A request with the estimate 4 costs 9, so that its tenant starts above the cap. The next take comes at a capped time,
// 4 and not 6, and lifts it to its key, 9 less 2.
#[test]
fn capped_and_lifted(rt: HostRuntime) {
    let rows = [
        told("submit 0 0 0 0 4 1", "request 0", 0),
        told("submit 0 0 0 0 4 2", "request 1", 0),
        told("take 10 0 0", "run 0 4 1", 0),
        told("done 10 9 0 9", "ok", 4),
        told("take 11 10 1", "run 1 4 2", 7),
        // b starts at 7
        told("submit 1 10 1 0 4 3", "request 2", 7),
        told("take 10 11 0", "run 2 4 3", 8),
    ];
    expect_each(&rt, rt.alloc(), TWO_WORKERS, &rows);
}

// A request with the estimate 20 costs 2. Its tenant gets 18 back, and the cap stays at 20: virtual time comes to 12
// while that tenant is charged 6 in all.
#[test]
fn a_refund_leaves_the_cap(rt: HostRuntime) {
    let one_worker =
        "script 1\nconfig 1 2dfq+ declared 1000 100 10\ntenant a 1\ntenant b 1\nkind get\n";
    let rows = [
        told("submit 0 0 0 0 20 1", "request 0", 0),
        told("take 10 0 0", "run 0 20 1", 0),
        told("done 10 2 0 2", "ok", 2),
        told("submit 0 2 0 0 4 2", "request 1", 2),
        told("submit 0 2 0 0 4 3", "request 2", 2),
        told("take 10 2 0", "run 1 4 2", 2),
        told("done 10 12 0 4", "ok", 12),
        // a starts at 6, and b at 12
        told("submit 1 12 1 0 4 4", "request 3", 12),
        told("take 10 12 0", "run 2 4 3", 12),
        // 12 + 20 / 2 is above the cap, where a starts then
        told("done 10 32 0 4", "ok", 20),
        told("submit 0 32 0 0 4 5", "request 4", 20),
        told("take 10 32 0", "run 3 4 4", 20),
    ];
    expect_each(&rt, rt.alloc(), one_worker, &rows);
}

// Weights and workers change between takes: a length is by the weight at its take, a stagger by the workers then.
#[test]
fn weights_and_workers_change(rt: HostRuntime) {
    let four_workers =
        "script 2\nconfig 4 2dfq+ declared 1000 100 10\ntenant a 2\ntenant b 1\nkind get\n";
    let rows = [
        told("submit 0 0 0 0 8 1", "request 0", 0),
        told("submit 0 0 0 0 8 2", "request 1", 0),
        told("submit 0 0 0 0 8 3", "request 2", 0),
        // 4 long, at weight 2
        told("take 10 0 0", "run 0 8 1", 0),
        // it starts at 4, and worker 3 of 4 takes 3 off
        told("take 13 0 3", "run 1 8 2", 1),
        told("weight 9 0 0 1", "ok", 1),
        told("workers 9 0 2", "ok", 1),
        // 1 + 2 * 2; the head starts at 8, is 8 long now, and worker 1 of 2 takes 4 off
        told("take 11 2 1", "run 2 8 3", 5),
        told("submit 1 2 1 0 12 4", "request 3", 5),
        told("submit 1 2 1 0 12 5", "request 4", 5),
        told("workers 9 2 1", "ok", 5),
        // 5 + 4 / 2
        told("done 10 6 0 8", "ok", 7),
        // b starts at 5 and finishes at 17, above a at 16
        told("take 10 6 0", "run 3 12 4", 7),
        // 7 + 34 / 2 is above
        told("done 10 40 0 12", "ok", 17),
        told("take 10 40 0", "run 4 12 5", 17),
    ];
    expect_each(&rt, rt.alloc(), four_workers, &rows);
}
