//! Scripts in which requests are withdrawn, worked by hand, over each chooser.
use crate::rows::{expect_each, told};

// The only request of a tenant. The history has four entries of room: the submit asks for all, and the withdraw takes
// the room that was kept for the take.
#[test]
fn the_only_request_after_the_close(rt: HostRuntime) {
    let head = "script 3\nconfig 1 2dfq declared 1000 4 10\ntenant a 1\nkind get\n";
    let rows = [
        told("submit 0 0 0 0 5 7", "request 0", 0),
        told("close 0 3", "ok", 3),
        told("withdraw 0 5 0", "withdrawn 7", 5),
        // nobody is active, and virtual time stands still
        told("withdraw 0 7 0", "refused not-waiting 0", 5),
        told("take 10 9 0", "drained", 5),
    ];
    expect_each(&rt, rt.alloc(), head, &rows);
}

// Under wfq the head that is next is compared by its own length, from the same start.
#[test]
fn the_head_and_one_in_the_middle(rt: HostRuntime) {
    let head = "script 3\nconfig 1 wfq declared 1000 100 10\ntenant a 1\ntenant b 1\nkind get\n";
    let rows = [
        told("submit 0 0 0 0 5 1", "request 0", 0),
        told("submit 0 0 0 0 2 2", "request 1", 0),
        told("submit 0 0 0 0 1 3", "request 2", 0),
        told("submit 0 0 0 0 9 4", "request 3", 0),
        told("submit 1 0 1 0 3 5", "request 4", 0),
        // in the middle: the head and its keys stay
        told("withdraw 0 0 2", "withdrawn 3", 0),
        told("withdraw 0 0 0", "withdrawn 1", 0),
        // a finishes at 2 now, and b at 3
        told("take 10 0 0", "run 1 2 2", 0),
        told("done 10 2 0 2", "ok", 1),
        // a starts at 2 and finishes at 11
        told("take 10 2 0", "run 4 3 5", 1),
        told("withdraw 0 3 4", "refused not-waiting 4", 1),
        told("withdraw 0 3 5", "refused not-waiting 5", 1),
        // 1 + 4 / 2
        told("done 10 6 0 3", "ok", 3),
        told("take 10 6 0", "run 3 9 4", 3),
    ];
    expect_each(&rt, rt.alloc(), head, &rows);
}

// A tenant that runs a request is still active when its last that waits is withdrawn, and nothing is charged or
// learned.
#[test]
fn one_whose_tenant_runs_another(rt: HostRuntime) {
    let head = "script 3\nconfig 1 2dfq recent 10 100 10\ntenant a 1\nkind get\n";
    let rows = [
        told("submit 0 0 0 0 1 1", "request 0", 0),
        told("submit 0 0 0 0 1 2", "request 1", 0),
        told("take 10 0 0", "run 0 10 1", 0),
        told("withdraw 0 2 1", "withdrawn 2", 2),
        told("done 10 6 0 4", "ok", 6),
        told("submit 0 8 0 0 1 3", "request 2", 6),
        // the mean of one cost
        told("take 10 8 0", "run 2 4 3", 6),
    ];
    expect_each(&rt, rt.alloc(), head, &rows);
}

// Under 2DFQ+ virtual time goes on to the moment of the withdraw, and a request that is submitted then starts there.
#[test]
fn virtual_time_goes_on(rt: HostRuntime) {
    let head = "script 3\nconfig 1 2dfq+ declared 1000 100 10\ntenant a 1\ntenant b 1\nkind get\n";
    let rows = [
        told("submit 0 0 0 0 10 1", "request 0", 0),
        told("submit 0 0 0 0 1 2", "request 1", 0),
        told("take 10 0 0", "run 0 10 1", 0),
        told("withdraw 0 4 1", "withdrawn 2", 4),
        // b starts at 4; a was charged 10
        told("submit 0 4 1 0 8 3", "request 2", 4),
        told("submit 0 4 0 0 1 4", "request 3", 4),
        // 4 + 16 / 2 is above the cap
        told("done 10 20 0 10", "ok", 10),
        // a finishes at 11, and b at 12
        told("take 10 20 0", "run 3 1 4", 10),
    ];
    expect_each(&rt, rt.alloc(), head, &rows);
}

// Under MSF2Q a tenant is idle from the withdraw of its last request on: b for the 4 units from 2 to 6.
#[test]
fn idle_time_begins(rt: HostRuntime) {
    let head = "script 3\nconfig 1 msf2q declared 1000 100 10\ntenant a 1\ntenant b 1\nkind get\n";
    let rows = [
        told("submit 0 0 0 0 4 1", "request 0", 0),
        told("submit 1 0 1 0 4 2", "request 1", 0),
        told("take 10 0 0", "run 0 4 1", 0),
        told("withdraw 1 2 1", "withdrawn 2", 1),
        told("done 10 6 0 4", "ok", 5),
        told("submit 1 6 1 0 4 3", "request 2", 5),
        told("submit 0 6 0 0 3 4", "request 3", 5),
        // both start at 4
        told("take 10 6 0", "run 3 3 4", 5),
    ];
    expect_each(&rt, rt.alloc(), head, &rows);
}
