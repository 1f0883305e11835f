ghost use Rattle.std.specs.Prelude.{◌≡◌};
ghost use Rattle.history_lock.specs.Passes.{IsOf};

use crate::histories::{are_callers, are_moments};
use crate::samples::{expect_same, expect_true};
use fq_model::event::Entry;
use history_lock::laws::Echo;
use history_lock::{HistoryLock, Pass};
use std::alloc::Global;
use std::ops::Range;
use std::process::Abort;
use std::sync::Wait;
use std::thread::{Threads, join_mut};

// A lock round an echo with room for this number of entries, and its first pass.
fn opened<R: Abort>(rt: &R, alloc: Global, room: u32) -> (HistoryLock<Echo>, Pass<u32>)
    ensures own { IsOf result.0 result.1 }
    ensures first { (result.1.number ≡ 0) × (result.1.made ≡ 0) }
{
    let echo = Echo::open(alloc, room).expect(rt, "memory for entries");
    HistoryLock::open(alloc, echo).expect(rt, "memory for a lock")
}

// Ends a lock, after the other pass was joined, and gives its echo.
fn closed<R: Abort>(rt: &R, lock: HistoryLock<Echo>, mut zero: Pass<u32>, one: Pass<u32>) -> Echo
    requires zero { IsOf lock zero × (zero.number ≡ 0) }
    requires one { IsOf lock one }
{
    lock.join(&mut zero, one);
    lock.close(zero).expect(rt, "each turn was served")
}

// Takes a turn.
fn turn<R: Wait>(rt: &R, lock: &HistoryLock<Echo>, pass: &mut Pass<u32>, call: u64) -> u64
    requires own { IsOf lock.now pass.old }
    ensures own { IsOf lock.now pass.new }
    ensures number { pass.new.number ≡ pass.old.number }
    ensures made { pass.new.made ≡ pass.old.made }
{
    lock.turn(rt, pass, call)
}

// Takes 100 turns, with numbers from 1,000 times the pass's own on.
fn turns<R: Wait>(rt: &R, lock: &HistoryLock<Echo>, pass: &mut Pass<u32>)
    requires own { IsOf lock.now pass.old }
    ensures own { IsOf lock.now pass.new }
    ensures number { pass.new.number ≡ pass.old.number }
{
    let from = pass.number() as u64 * 1000;
    for call in from..from + 100 {
        turn(rt, lock, pass, call);
    }
}

// Whether these are the moments of a caller's entries.
fn are_moments_of(past: &[Entry], who: u32, mut wanted: Range<u64>) -> bool {
    for e in past {
        if e.who == who && wanted.next() != Some(e.moment) {
            return false;
        }
    }
    wanted.is_empty()
}

// The echo after two passes took their turns, of which it had no room for the last.
fn four_turns<R: Wait + Abort>(rt: &R, alloc: Global) -> Echo {
    let (lock, mut zero) = opened(rt, alloc, 3);
    expect_same(rt, turn(rt, &lock, &mut zero, 9), 0);
    let mut one = lock.split(&mut zero);
    expect_same(rt, one.number(), 1);
    expect_same(rt, turn(rt, &lock, &mut one, 4), 1);
    expect_same(rt, turn(rt, &lock, &mut zero, 7), 2);
    expect_same(rt, turn(rt, &lock, &mut one, 8), 3);
    closed(rt, lock, zero, one)
}

#[test]
fn two_passes_of_one_thread(rt: HostRuntime) {
    let echo = four_turns(&rt, rt.alloc());
    expect_true(&rt, are_moments(echo.past(), &[9, 4, 7]));
    expect_true(&rt, are_callers(echo.past(), &[0, 1, 0]));
}

// The echo after two passes took 100 turns, each in a thread of its own.
fn hundred_each<R: Threads + Wait + Sync + Abort>(rt: &R, alloc: Global) -> Echo {
    let (lock, mut zero) = opened(rt, alloc, 200);
    let mut one = lock.split(&mut zero);
    let shared = &lock;
    let a = &mut zero;
    let b = &mut one;
    join_mut(
        rt,
        &mut || turns(rt, shared, a),
        &mut || turns(rt, shared, b),
    );
    closed(rt, lock, zero, one)
}

#[test]
fn two_threads(rt: HostRuntime) {
    let echo = hundred_each(&rt, rt.alloc());
    expect_same(&rt, echo.past().len(), 200);
    expect_true(&rt, are_moments_of(echo.past(), 0, 0..100));
    expect_true(&rt, are_moments_of(echo.past(), 1, 1000..1100));
}
