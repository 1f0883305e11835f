//! The configuration of worked histories, and a check of texts.
ghost use Rattle.std.specs.Prelude.{◌≡◌};
ghost use Rattle.text_tests.specs.Worked.{worked_config};

use fq_model::config::{Checked, Config};
use std::alloc::Global;
use std::fmt::{Debug, Display};
use std::process::Abort;
use test_samples::sample_config;

/// This number of workers, and two tenants of weight 1.
pub fn two_tenants<R: Abort>(rt: &R, alloc: Global, workers: u32) -> Checked
    ensures { result ≡ worked_config workers }
{
    let weights = vec![in alloc; 1, 1].expect(rt, "memory for weights");
    let config = Config {
        workers,
        ..sample_config(weights)
    };
    config.check().expect(rt, "numbers in their limits")
}

/// A text was written, and is this one.
pub fn expect_text<E: Debug, R: Abort>(rt: &R, told: Result<Vec<u8>, E>, wanted: &[u8]) {
    let text = told.expect(rt, "memory for a text");
    expect_same(rt, text.as_slice(), wanted);
}

/// The two are equal.
pub fn expect_same<T: PartialEq + Debug + Drop, R: Abort>(rt: &R, told: T, wanted: T) {
    assert_eq!(rt; told, wanted);
}

/// The two are equal, in this case.
pub fn expect_same_at<D: Display + Drop, T: PartialEq + Debug + Drop, R: Abort>(
    rt: &R,
    case: D,
    told: T,
    wanted: T,
) {
    assert_eq!(rt; told, wanted, "at {case}");
}
