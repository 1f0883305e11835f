//! The lags after each slot, and the samples at ranks.
ghost use Rattle.std.specs.Prelude.{◌≡◌, ◌≤◌, ◌<◌, ◌≤ℤ◌, ◌+◌, ◌*◌, ◌∷◌, length, take, sum, IfOk, All};
ghost use Rattle.vt_fixed.specs.Rounding.{ceil_div};
ghost use Rattle.fq_model.specs.Ranks.{least_sample};
ghost use Rattle.lag_report.specs.Work.{samples_from};
ghost use Rattle.lag_report.specs.Ranked.{ranked, StandsAt};

use fq_model::limits::{GREATEST_BACKLOG, MOST_CELLS};
use std::alloc::{AllocError, Global};

/// The lags after each slot: the service up to its end, less the work gained in it and before.
pub fn samples(alloc: Global, served: &[u64], gains: &[u64]) -> Result<Vec<i64>, AllocError>
    requires same { length gains.now ≡ length served.now }
    requires served { All (λ s. s ≤ GREATEST_BACKLOG) served.now }
    requires gained { sum gains.now ≤ GREATEST_BACKLOG }
    ensures { IfOk result (λ v. v.items ≡ samples_from served.now (λ k. sum (take k gains.now))) }
{
    let mut samples = Vec::with_capacity(alloc, served.len())?;
    let mut work = 0;
    for k in 0..served.len() {
        work += gains[k];
        samples.push_reserved(served[k] as i64 - work as i64);
    }
    Ok(samples)
}

/// The least lag, percentiles 50, 90 and 99, and the greatest, in microseconds of work.
#[derive(Clone, Copy)]
pub struct Ranked {
    pub least: i64,
    pub p50: i64,
    pub p90: i64,
    pub p99: i64,
    pub greatest: i64,
}

/// The samples at the ranks that a report names. Leaves the samples in any order.
pub fn rank(samples: &mut [i64]) -> Ranked
    requires some { 1 ≤ length samples.old }
    requires few { length samples.old ≤ MOST_CELLS }
    ensures { result ≡ ranked samples.old }
{
    let count = samples.len();
    let (p50_at, p90_at, p99_at) = (place(50, count), place(90, count), place(99, count));
    let least = least(samples);
    let (_, middle, rest) = samples.select_nth_unstable(p50_at);
    let p50 = *middle;
    let (p90, rest) = select(p50, rest, p90_at - p50_at);
    let (p99, rest) = select(p90, rest, p99_at - p90_at);
    let (greatest, _) = select(p99, rest, count - 1 - p99_at);
    Ranked {
        least,
        p50,
        p90,
        p99,
        greatest,
    }
}

// The least sample.
fn least(samples: &[i64]) -> i64
    requires { 1 ≤ length samples.now }
    ensures { result ≡ least_sample samples.now }
{
    let mut least = samples[0];
    for &sample in samples {
        least = least.min(sample);
    }
    least
}

// The sample at a place, counted from 0, of a sample and the rest, none of which is less; and the samples after it.
fn select(first: i64, rest: &mut [i64], at: usize) -> (i64, &mut [i64])
    requires least { All (λ y. first ≤ℤ y) rest.old }
    requires inside { at ≤ length rest.old }
    ensures { StandsAt (first ∷ rest.old) at result.0 result.1.now }
{
    if at == 0 {
        return (first, rest);
    }
    let (_, sample, after) = rest.select_nth_unstable(at - 1);
    (*sample, after)
}

// The place of a percentile among this number of samples in order.
fn place(p: usize, count: usize) -> usize
    requires low { 1 ≤ p }
    requires high { p ≤ 100 }
    requires some { 1 ≤ count }
    requires few { count ≤ MOST_CELLS }
    ensures rank { result + 1 ≡ ceil_div (p * count) 100 }
    ensures within { result < count }
{
    (p * count).div_ceil(100) - 1
}
