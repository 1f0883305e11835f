use crate::gap_tests::{done, submit, take, two_tenants};
use crate::samples::expect_same_at;
use eligible_index::index::IndexChooser;
use fq_model::config::{Estimator, Policy};
use fq_model::event::Entry;
use std::alloc::Global;
use std::process::Abort;
use tag_difference::gap::Gap;
use tag_lead::leads::{Lead, tag_lead};

// The leads in a history of one worker with two tenants of weight 1: that of the first over the second, and that of the
// second over the first.
fn expect_leads<R: Abort>(
    rt: &R,
    alloc: Global,
    policy: Policy,
    past: &[Entry],
    first: Option<Lead>,
    second: Option<Lead>,
) {
    let config = two_tenants(rt, alloc, 1, 1, policy, Estimator::Declared);
    let told = tag_lead::<IndexChooser>(alloc, past, &config, 0, 1);
    expect_same_at(rt, "the first", told.ok(), Some(first));
    let told = tag_lead::<IndexChooser>(alloc, past, &config, 1, 0);
    expect_same_at(rt, "the second", told.ok(), Some(second));
}

// A lead of this number of units of virtual time, and its bound in units.
fn lead(largest: i64, bound: i64) -> Option<Lead> {
    let gap = Gap {
        largest: largest as i128 * 1048576,
        bound: bound as i128 * 1048576,
    };
    Some(Lead { gap, ever: None })
}

// Nothing is taken while both wait: the first is ahead by a request when the second comes.
#[test]
fn both_begin_apart(rt: HostRuntime) {
    let past = [
        submit(0, 0, 0, 10),
        submit(0, 1, 0, 10),
        submit(0, 2, 0, 10),
        take(0, 0, 0, 10),
        done(10, 0, 0, 10),
        take(10, 0, 1, 10),
        submit(10, 3, 1, 1),
    ];
    expect_leads(
        &rt,
        rt.alloc(),
        Policy::Wf2q,
        &past,
        lead(10, 10),
        lead(-10, 0),
    );
}

// Two never wait together, though the second waits while a request of the first runs.
#[test]
fn never_together(rt: HostRuntime) {
    let past = [submit(0, 0, 0, 1), take(0, 0, 0, 1), submit(0, 1, 1, 1)];
    expect_leads(&rt, rt.alloc(), Policy::TwoDfq, &past, None, None);
}
