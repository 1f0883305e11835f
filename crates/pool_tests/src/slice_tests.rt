//! The slices that the workers of a pool ask a gate for.
ghost use Rattle.std.specs.Prelude.{None};

use crate::hand_tests::{Aside, served};
use crate::histories::count_of;
use crate::samples::{expect_same, expect_same_at};
use eligible_index::index::IndexChooser;
use std::alloc::Global;
use std::process::Abort;
use std::sync::atomic::{AtomicU64, Ordering};
use worker_gate::{Counters, Gate, LoggedGate, Slice};

// Counts the slices that it is asked for: of job j, number j has in its byte k how often slice k was asked for. Job j
// ends with slice j % 4.
#[derive(Drop)]
struct NotingGate {
    asked: Vec<AtomicU64>,
}

impl NotingGate {
    fn new<R: Abort>(rt: &R, alloc: Global, jobs: usize) -> NotingGate {
        let mut asked = Vec::new(alloc);
        for _ in 0..jobs {
            asked.push(AtomicU64::new(0)).expect(rt, "memory for a job");
        }
        NotingGate { asked }
    }
}

impl Gate<u64> for NotingGate {
    ghost course = { λ _ _. None };

    fn slice(&self, job: &u64, k: u32, last: Counters) -> Slice {
        if let Some(asked) = self.asked.get(*job as usize) {
            asked.fetch_add(1u64.wrapping_shl(8 * k.min(7)), Ordering::SeqCst);
        }
        if u64::from(k) < *job % 4 {
            Slice::More(last)
        } else {
            Slice::End(last)
        }
    }
}

// Each slice up to the last, once.
const ONCE: [u64; 4] = [0x1, 0x101, 0x10101, 0x1010101];

#[test]
fn each_slice_once_and_none_after_the_end(rt: HostRuntime) {
    let mut gate = LoggedGate::new(NotingGate::new(&rt, rt.alloc(), 40));
    let end = served::<IndexChooser, NotingGate, HostRuntime>(
        &rt,
        rt.alloc(),
        &mut gate,
        0..40,
        40,
        Aside::Nothing,
    );
    expect_same(&rt, count_of(end.past.as_slice(), None, 'd'), 40);
    for (job, asked) in gate.into_gate().asked.iter().enumerate() {
        expect_same_at(&rt, job, asked.load(Ordering::SeqCst), ONCE[job % 4]);
    }
}
