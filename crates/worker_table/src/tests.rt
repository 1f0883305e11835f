//! A few tables, worked by hand.
ghost use Rattle.std.specs.Prelude.{◌≡◌, ◌<◌, ◌≤◌, length};

use crate::table::WorkerTable;
use std::process::Abort;

// A worker that is free runs this from now on.
fn start<R: Abort>(rt: &R, table: &mut WorkerTable<u32>, worker: u32, run: u32)
    ensures { length table.new ≡ length table.old }
{
    let is_known = worker < table.len();
    assert!(rt; is_known);
    if is_known && table.next_free(worker, worker + 1) == Some(worker) {
        table.start(worker, run);
    }
    assert!(rt; table.run_of(worker) == Some(run));
}

// A worker runs something else.
fn change(table: &mut WorkerTable<u32>, worker: u32, run: u32)
    ensures { length table.new ≡ length table.old }
{
    if table.run_of(worker).is_some() {
        table.change(worker, run);
    }
}

// The next free worker from each of these on, below `below`.
fn expect_free<R: Abort>(
    rt: &R,
    table: &WorkerTable<u32>,
    below: u32,
    wanted: &[(u32, Option<u32>)],
) {
    let are_known = below <= table.len();
    assert!(rt; are_known);
    if !are_known {
        return;
    }
    for &(from, worker) in wanted {
        assert!(rt; table.next_free(from, below) == worker);
    }
}

// 130 workers in three words: the first 64 run something, then every second one up to 128.
#[test]
fn free_workers_are_found_in_order(rt: HostRuntime) {
    let opened = WorkerTable::open(rt.alloc(), 130);
    if let Ok(mut table) = opened {
        expect_free(
            &rt,
            &table,
            130,
            &[(0, Some(0)), (63, Some(63)), (129, Some(129)), (130, None)],
        );
        for worker in 0..64 {
            start(&rt, &mut table, worker, 1);
        }
        start(&rt, &mut table, 64, 2);
        start(&rt, &mut table, 129, 3);
        expect_free(
            &rt,
            &table,
            130,
            &[(0, Some(65)), (65, Some(65)), (128, Some(128)), (129, None)],
        );
        expect_free(&rt, &table, 65, &[(0, None), (64, None)]);
        expect_free(&rt, &table, 66, &[(0, Some(65)), (66, None)]);
        assert!(rt; table.running() == 66);
        assert!(rt; table.end(63) == Some(1));
        assert!(rt; table.end(63) == None);
        expect_free(&rt, &table, 130, &[(0, Some(63)), (64, Some(65))]);
        assert!(rt; table.running() == 65);
    }
}

// What a worker runs is changed in place, and a number that no worker has runs nothing.
#[test]
fn a_run_is_changed_in_place(rt: HostRuntime) {
    let opened = WorkerTable::open(rt.alloc(), 1);
    if let Ok(mut table) = opened {
        assert!(rt; table.run_of(0) == None);
        start(&rt, &mut table, 0, 7);
        change(&mut table, 0, 8);
        assert!(rt; table.run_of(0) == Some(8));
        assert!(rt; table.run_of(1) == None);
        assert!(rt; table.end(1) == None);
        assert!(rt; table.running() == 1);
        expect_free(&rt, &table, 1, &[(0, None)]);
    }
}
