//! Random histories of many workers and tenants, over each chooser.
ghost use Rattle.std.specs.Prelude.{◌≤◌};

use crate::samples::{expect_same_at, expect_true};
use eligible_index::index::IndexChooser;
use fitted_chooser::chooser::ProgramChooser;
use fq_model::config::{Config, Estimator, Policy};
use fq_model::event::Call;
use fq_model::limits::Limits;
use rand_core::SeedableRng;
use rand_core::utils::NextWord;
use rand_pcg::Lcg64Xsh32;
use rival_policies::plain::PlainChooser;
use sched_journal::History;
use sched_state::{Scheduler, answer};
use shared_order::chooser::SharedChooser;
use std::alloc::Global;
use std::process::Abort;
use tag_rules::chooser::Chooser;
use test_samples::sample_config;

// The calls of a history.
const CALLS: u32 = 30000;

// A call at this moment, by four random numbers, on schedulers of this many workers and tenants. Of sixteen calls four
// submit, six take, four end a request; the others change a weight or the number of workers. Costs reach the greatest.
fn call_of(moment: u64, workers: u32, tenants: u32, numbers: [u32; 4]) -> Call
    requires workers { 1 ≤ workers }
    requires tenants { 1 ≤ tenants }
{
    let [kind, first, second, cost] = numbers;
    let (worker, tenant) = (first % workers, second % tenants);
    let cost = 1 + (cost % 1000000000) as u64;
    let who = 0;
    match kind % 16 {
        0..=3 => Call::Submit {
            who,
            moment,
            tenant,
            kind: 0,
            declared: cost,
            label: cost,
        },
        4..=9 => Call::Take {
            who,
            moment,
            worker,
        },
        10..=13 => Call::Done {
            who,
            moment,
            worker,
            cost,
        },
        14 => Call::Weight {
            who,
            moment,
            tenant,
            weight: 1 + first % 100000,
        },
        _ => Call::Workers {
            who,
            moment,
            count: 1 + worker,
        },
    }
}

// Makes random calls.
fn call_at_random<X: Chooser>(scheduler: &mut Scheduler<u64, X>, workers: u32, tenants: u32)
    requires workers { 1 ≤ workers }
    requires tenants { 1 ≤ tenants }
{
    let mut random = Lcg64Xsh32::seed_from_u64(7);
    let mut moment = 0_u64;
    for _ in 0..CALLS {
        let numbers = [
            random.next_word(),
            random.next_word(),
            random.next_word(),
            random.next_word(),
        ];
        moment = moment.saturating_add((numbers[3] % 64) as u64);
        answer(scheduler, call_of(moment, workers, tenants, numbers));
    }
}

// The history of random calls, by a scheduler over this chooser.
fn history_by<X: Chooser + Drop, R: Abort>(
    rt: &R,
    alloc: Global,
    policy: Policy,
    workers: u32,
    tenants: u32,
) -> History
    requires workers { 1 ≤ workers }
    requires tenants { 1 ≤ tenants }
{
    let weights = vec![in alloc; 50000; tenants as usize].expect(rt, "memory for weights");
    let config = Config {
        limits: Limits::Whole,
        workers,
        entries: 4 * CALLS,
        requests: CALLS,
        policy,
        estimate: Estimator::Recent,
        ..sample_config(weights)
    };
    let checked = config.check().expect(rt, "numbers in their limits");
    let opened = Scheduler::<u64, X>::open(alloc, checked);
    let mut scheduler = opened.expect(rt, "memory for a scheduler");
    call_at_random(&mut scheduler, workers, tenants);
    scheduler.into_history()
}

// A chooser makes the same history as another, under each policy, and thousands of calls are accepted.
fn expect_alike<X: Chooser + Drop, P: Chooser + Drop, R: Abort>(
    rt: &R,
    alloc: Global,
    workers: u32,
    tenants: u32,
)
    requires workers { 1 ≤ workers }
    requires tenants { 1 ≤ tenants }
{
    for policy in [
        Policy::Wfq,
        Policy::Wf2q,
        Policy::Msf2q,
        Policy::TwoDfq,
        Policy::TwoDfqPlus,
    ] {
        let one = history_by::<X, R>(rt, alloc, policy, workers, tenants);
        let other = history_by::<P, R>(rt, alloc, policy, workers, tenants);
        expect_true(rt, one.past().len() > 10000);
        expect_same_at(rt, policy, one.past() == other.past(), true);
    }
}

#[test]
fn more_workers_than_a_text_has(rt: HostRuntime) {
    expect_alike::<IndexChooser, PlainChooser, HostRuntime>(&rt, rt.alloc(), 65, 300);
    expect_alike::<SharedChooser, PlainChooser, HostRuntime>(&rt, rt.alloc(), 65, 300);
}

#[test]
fn most_workers(rt: HostRuntime) {
    expect_alike::<IndexChooser, PlainChooser, HostRuntime>(&rt, rt.alloc(), 4096, 40);
    expect_alike::<ProgramChooser, PlainChooser, HostRuntime>(&rt, rt.alloc(), 4096, 40);
}

#[test]
fn thousands_of_tenants(rt: HostRuntime) {
    expect_alike::<IndexChooser, PlainChooser, HostRuntime>(&rt, rt.alloc(), 100, 5000);
    expect_alike::<ProgramChooser, PlainChooser, HostRuntime>(&rt, rt.alloc(), 1000, 5000);
}
