//! The longest length of a request.
ghost use Rattle.std.specs.Prelude.{◌≡◌, ◌<◌, ◌*◌, length, pos, ◌≤ℤ◌};
ghost use Rattle.vt_fixed.specs.declared.limits.TheConstants.{GREATEST_LENGTH};
ghost use Rattle.fq_model.specs.Limits.{InLimits};
ghost use Rattle.fq_model.specs.Charge.{greatest};
ghost use Rattle.fq_model.specs.History.{history_of};
ghost use Rattle.fq_model.specs.Gap.{lengths_had, longest_length, lengths_in_bound};
ghost use Rattle.fq_model.specs.Rules.{IsLegal};
ghost use Rattle.tag_gap.specs.Lengths.{extremes_with};

use fq_model::config::{Checked, Policy};
use fq_model::event::{Act, Entry};
use vt_fixed::length;

/// While two tenants wait, the start of the first is above that of the second by no more than this, in steps, or than
/// where it began: the longest length of a request of the two, and under 2dfq and 2dfq+ twice that.
pub fn least_bound(past: &[Entry], config: &Checked, f: u32, g: u32) -> i128
    requires legal { IsLegal config.now (history_of past.now) }
    requires f_known { f < length config.now.weights }
    requires g_known { g < length config.now.weights }
    ensures { result ≡ pos (lengths_in_bound config.now.policy
        * longest_length config.now (history_of past.now) f g) }
{
    let policy = config.policy();
    let longest = longest(past, config, f).max(longest(past, config, g));
    match policy {
        Policy::TwoDfq | Policy::TwoDfqPlus => 2 * longest,
        Policy::Wfq | Policy::Wf2q | Policy::Msf2q => longest,
    }
}

// The longest length of a request of the tenant, in steps: that of the greatest declared cost at the least weight that
// the tenant has had, since a length rises with the cost and falls with the weight.
fn longest(past: &[Entry], config: &Checked, tenant: u32) -> i128
    requires legal { IsLegal config.now (history_of past.now) }
    requires limits { InLimits config.now }
    requires known { tenant < length config.now.weights }
    ensures value { result ≡ pos (greatest (lengths_had config.now (history_of past.now) tenant)) }
    ensures high { result ≤ℤ GREATEST_LENGTH }
{
    let mut extremes = Extremes {
        cost: 0,
        weight: config.weight(tenant),
    };
    for entry in past {
        extremes = extremes.with(entry, tenant);
    }
    length(extremes.cost, extremes.weight)
}

/// The greatest cost that is declared for a tenant's requests, and the least weight that it has had.
#[derive(Clone, Copy, Debug, PartialEq, Eq)]
pub struct Extremes {
    /// In microseconds.
    pub cost: u64,
    pub weight: u32,
}

impl Extremes {
    // With one entry more.
    fn with(self, entry: &Entry, tenant: u32) -> Extremes
        ensures { result ≡ extremes_with self entry.now.act tenant }
    {
        match entry.act {
            Act::Submit {
                tenant: t,
                declared,
                ..
            } if t == tenant => Extremes {
                cost: self.cost.max(declared),
                ..self
            },
            Act::Weight {
                tenant: t,
                weight: w,
            } if t == tenant => Extremes {
                weight: self.weight.min(w),
                ..self
            },
            _ => self,
        }
    }
}
