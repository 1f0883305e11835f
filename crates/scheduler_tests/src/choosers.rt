//! Tests for every chooser.
ghost use Rattle.std.specs.Prelude.{◌≡◌, ◌≢◌, ◌≤◌, pos, replicate, None};
ghost use Rattle.scheduler_tests.specs.ByTenant.{IsByTenant};

use crate::samples::{configured, expect_same, send_away};
use fq_model::config::Policy;
use fq_model::limits::MOST_WORKERS;
use std::alloc::Global;
use std::marker::Send;
use std::process::Abort;
use tag_rules::chooser::Chooser;
use tag_rules::head_keys::Keys;
use tag_rules::keys::keys;

/// One virtual unit, in steps.
pub const UNIT: i128 = 1048576;

/// A chooser of this policy in which no tenant has keys.
pub fn opened<X: Chooser, R: Abort>(
    rt: &R,
    alloc: Global,
    policy: Policy,
    workers: u32,
    tenants: u32,
) -> X
    requires low { 1 ≤ workers }
    requires high { workers ≤ MOST_WORKERS }
    ensures setting { (X.seen result).setting
        ≡ record { policy = policy; most_workers = workers; workers = workers; tenants = tenants } }
    ensures table { (X.seen result).table ≡ replicate tenants None }
    ensures by_tenant { IsByTenant (X.seen result).table }
    ensures latest { (X.seen result).latest ≡ pos 0 }
{
    let config = configured(rt, alloc, policy, workers, tenants as usize);
    X::open(alloc, &config).expect(rt, "memory for keys")
}

/// Two tenants whose heads have these keys.
pub fn with_heads<X: Chooser, R: Abort>(
    rt: &R,
    alloc: Global,
    policy: Policy,
    workers: u32,
    first: Keys,
    second: Keys,
) -> X
    requires low { 1 ≤ workers }
    requires high { workers ≤ MOST_WORKERS }
    requires differ { first.request ≢ second.request }
    ensures setting { (X.seen result).setting
        ≡ record { policy = policy; most_workers = workers; workers = workers; tenants = 2 } }
    ensures latest { (X.seen result).latest ≡ pos 0 }
{
    let mut chooser = opened::<X, R>(rt, alloc, policy, workers, 2);
    chooser.set(0, Some(first));
    chooser.set(1, Some(second));
    chooser
}

/// The stagger goes by the present number of workers. Of four the second begins a quarter of a length early: the first
/// tenant's head is eligible from 6 units on, the second's from 5.25 units. Of two it begins half a length early: from
/// 4 units on, and from 5.
pub fn expect_resized<X: Chooser + Drop + Send, R: Abort>(rt: &R, alloc: Global) {
    let long = keys(8388608, 8, 1, 0);
    let short = keys(5767168, 1, 1, 1);
    let mut chooser = with_heads::<X, R>(rt, alloc, Policy::TwoDfq, 4, long, short);
    let of_four = chooser.choose(1, 4718592);
    chooser.resize(2);
    let of_two = chooser.choose(1, 4718592);
    chooser.resize(4);
    let of_four_again = chooser.choose(1, 4718592);
    expect_same(
        rt,
        [of_four, of_two, of_four_again],
        [Some(1), Some(0), Some(1)],
    );
    send_away(chooser);
}

/// Of equal finishes the lesser request's is chosen.
pub fn expect_lesser_first<X: Chooser + Drop, R: Abort>(rt: &R, alloc: Global) {
    let newer = keys(3 * UNIT, 4, 1, 9);
    let older = keys(4 * UNIT, 3, 1, 8);
    let mut chooser = with_heads::<X, R>(rt, alloc, Policy::Wf2q, 1, newer, older);
    let of_both = chooser.choose(0, 4 * UNIT);
    chooser.set(1, None);
    let of_one = chooser.choose(0, 4 * UNIT);
    chooser.set(0, None);
    let of_none = chooser.choose(0, 4 * UNIT);
    expect_same(rt, [of_both, of_one, of_none], [Some(1), Some(0), None]);
}
