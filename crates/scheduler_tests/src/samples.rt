//! A check and a configuration that the tests share.
ghost use Rattle.std.specs.Prelude.{◌≡◌, ◌≤◌, length};

use fq_model::config::{Checked, Config, Policy};
use fq_model::limits::{Limits, MOST_WORKERS};
use std::alloc::Global;
use std::fmt::{Debug, Display};
use std::marker::Send;
use std::process::Abort;
use test_samples::sample_config;

/// Only values that may go to another thread can be passed here.
pub fn send_away<T: Send + Drop>(_sent: T) {}

/// This number of tenants of weight 1, and costs as declared.
pub fn configured<R: Abort>(
    rt: &R,
    alloc: Global,
    policy: Policy,
    workers: u32,
    tenants: usize,
) -> Checked
    requires low { 1 ≤ workers }
    requires high { workers ≤ MOST_WORKERS }
    ensures policy { result.policy ≡ policy }
    ensures workers { result.workers ≡ workers }
    ensures tenants { length result.weights ≡ tenants }
{
    let weights = vec![in alloc; 1; tenants].expect(rt, "memory for weights");
    let config = Config {
        limits: Limits::Whole,
        workers,
        policy,
        ..sample_config(weights)
    };
    config.check().expect(rt, "numbers in their limits")
}

/// The two are equal.
pub fn expect_same<T: PartialEq + Debug + Drop, R: Abort>(rt: &R, told: T, wanted: T) {
    assert_eq!(rt; told, wanted);
}

/// The two are equal, in this case.
pub fn expect_same_at<D: Display + Drop, T: PartialEq + Debug + Drop, R: Abort>(
    rt: &R,
    case: D,
    told: T,
    wanted: T,
) {
    assert_eq!(rt; told, wanted, "at {case}");
}

/// It is so.
pub fn expect_true<R: Abort>(rt: &R, is_so: bool) {
    assert!(rt; is_so);
}
