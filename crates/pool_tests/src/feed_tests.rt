ghost use Rattle.std.specs.Prelude.{◌≡◌};
ghost use Rattle.history_lock.specs.Passes.{IsOf};

use crate::histories::{are_acts, are_moments};
use crate::rule_tests::Parity;
use crate::samples::{configured, ended, expect_same, expect_true, opened};
use desk::{Desk, Submitter};
use fq_io::Clock;
use fq_memory::FixedClock;
use fq_model::event::{Act, Cause, Entry};
use gate_rules::kind_rule::KindRule;
use gate_rules::rows::{Fed, Row};
use rival_policies::plain::PlainChooser;
use std::alloc::Global;
use std::collections::VecDeque;
use std::process::Abort;
use std::sync::Wait;
use std::sync::atomic::{AtomicU64, Ordering};
use tag_rules::chooser::Chooser;
use worker_gate::feed::{feed, feed_by};

// Rows of jobs 4 and 5 that name a kind 9.
fn two_rows<R: Abort>(rt: &R, alloc: Global) -> VecDeque<Row<u64>> {
    let mut rows = VecDeque::new(alloc);
    for job in 4..6 {
        let row = Row {
            tenant: 0,
            kind: 9,
            declared: 5,
            job,
        };
        rows.push_back(row).expect(rt, "memory for rows");
    }
    rows
}

fn submitted(request: u32, kind: u32, label: u64) -> Act {
    Act::Submit {
        request,
        tenant: 0,
        kind,
        declared: 5,
        label,
    }
}

// Whether one row is left, which has this job.
fn is_only(rows: &VecDeque<Row<u64>>, job: u64) -> bool {
    match rows.front() {
        Some(row) => row.job == job && rows.len() == 1,
        None => false,
    }
}

// The first row is refused, since there is no kind 9, and the other is left.
fn refused<X: Chooser, R: Wait + Abort>(
    rt: &R,
    alloc: Global,
    desk: &Desk<u64, X>,
    who: &mut Submitter,
    clock: &FixedClock,
)
    requires { IsOf desk.now.lock who.old.pass }
    ensures own { IsOf desk.now.lock who.new.pass }
    ensures number { who.new.pass.number ≡ who.old.pass.number }
{
    let fed = feed(desk, rt, who, two_rows(rt, alloc), 2, clock);
    let Fed::Stopped { row, rest, cause } = fed else {
        panic!(rt; "no row names a kind that there is")
    };
    expect_same(rt, (row.job, row.kind, cause), (4, 9, Cause::Kind(9)));
    expect_true(rt, is_only(&rest, 5));
}

// The entries of a desk of two kinds after both ways to hand in such rows.
fn fed_both_ways<X: Chooser + Drop, R: Wait + Abort>(rt: &R, alloc: Global) -> Vec<Entry> {
    let config = configured(rt, alloc, 1, 2, 100, 10);
    let (desk, mut who, worker) = opened::<X, R>(rt, alloc, config);
    let clock = FixedClock::new(50);
    refused(rt, alloc, &desk, &mut who, &clock);
    let rule = KindRule::new(Parity, 2);
    let rows = two_rows(rt, alloc);
    let fed = feed_by(&desk, rt, &mut who, rows, 2, &clock, &rule);
    expect_true(rt, matches!(fed, Fed::All));
    ended(rt, alloc, desk, who, worker)
}

#[test]
fn rows_of_no_kind_by_themselves_and_by_a_rule(rt: HostRuntime) {
    let past = fed_both_ways::<PlainChooser, HostRuntime>(&rt, rt.alloc());
    let wanted = [submitted(0, 0, 4), submitted(1, 1, 5), Act::Close];
    expect_true(&rt, are_acts(past.as_slice(), &wanted));
}

// Tells one moment more each time that it is asked.
#[derive(Drop)]
struct TickingClock {
    moment: AtomicU64,
}

impl Clock for TickingClock {
    ghost tells = { λ _ _. Unit {0} };

    fn now(&self) -> u64 {
        self.moment.fetch_add(1, Ordering::SeqCst)
    }
}

// The entries of a desk after a feed by such a clock.
fn fed_by_ticks<X: Chooser + Drop, R: Wait + Abort>(rt: &R, alloc: Global) -> Vec<Entry> {
    let config = configured(rt, alloc, 1, 10, 100, 10);
    let (desk, mut who, worker) = opened::<X, R>(rt, alloc, config);
    let clock = TickingClock {
        moment: AtomicU64::new(50),
    };
    let fed = feed(&desk, rt, &mut who, two_rows(rt, alloc), 2, &clock);
    expect_true(rt, matches!(fed, Fed::All));
    ended(rt, alloc, desk, who, worker)
}

#[test]
fn each_row_at_its_own_moment(rt: HostRuntime) {
    let past = fed_by_ticks::<PlainChooser, HostRuntime>(&rt, rt.alloc());
    expect_true(&rt, are_moments(past.as_slice(), &[50, 51, 52]));
}
