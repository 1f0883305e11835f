//! The keys of heads.
ghost use Rattle.std.specs.Prelude.{◌≡◌, ◌≤◌, ◌<◌, pos, ◌-ℤ◌, ◌≤ℤ◌};
ghost use Rattle.vt_fixed.specs.Rounding.{length_of};
ghost use Rattle.fq_model.specs.Keys as spec;

use crate::head_keys::Keys;
use fq_model::config::Policy;
use fq_model::limits::{GREATEST_COST, GREATEST_START, GREATEST_WEIGHT};
use vt_fixed::{length, part};

impl Keys {
    /// Where the head finishes, in steps.
    pub fn finish(&self) -> i128
        ensures { result ≡ spec.finish self.now }
    {
        self.start + self.len
    }
}

/// The keys of the head `request` of a tenant with this start, in steps, and this weight, at this estimate, in
/// microseconds.
pub fn keys(start: i128, estimate: u64, weight: u32, request: u32) -> Keys
    requires start_low { pos 0 ≤ℤ start }
    requires start_high { start ≤ℤ GREATEST_START }
    requires estimate_in_range { estimate ≤ GREATEST_COST }
    requires weight_positive { 1 ≤ weight }
    requires weight_in_range { weight ≤ GREATEST_WEIGHT }
    ensures { result ≡ record { start = start; len = pos (length_of estimate weight); request = request } }
{
    Keys {
        start,
        len: length(estimate, weight),
        request,
    }
}

/// The virtual time from which on the head is eligible for a worker, in steps: where its tenant starts, and under
/// `2dfq` and `2dfq+` earlier by the worker's part of its length (after Mace and others, 2016). It may be below 0.
pub fn eligible_key(policy: Policy, keys: Keys, worker: u32, workers: u32) -> i128
    requires worker { worker < workers }
    ensures { result ≡ keys.start -ℤ spec.stagger policy keys.len worker workers }
{
    match policy {
        Policy::Wfq | Policy::Wf2q | Policy::Msf2q => keys.start,
        Policy::TwoDfq | Policy::TwoDfqPlus => keys.start - part(keys.len, worker, workers),
    }
}
