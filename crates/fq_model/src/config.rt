//! The configuration of a scheduler.
ghost use Rattle.std.specs.Prelude.{◌≡◌, ◌<◌, ◌≤◌, length, IfOk, IfErr, IfNone, All, Some, None, slice_index};
ghost use Rattle.fq_model.specs.Limits.{
  InLimits,
  IsWithinOwn,
  IsWithin,
  greatest_weight,
  is_outside,
  bad_weight,
  config_fault,
};

use crate::limits::{GREATEST_COST, GREATEST_WEIGHT, LEAST_ENTRIES, Limits, MOST_KINDS};
use crate::messages::{out_of_range, two_numbers};
use std::error::Error;
use std::fmt;
use std::marker::Model;

/// Which waiting request a worker takes.
#[derive(Clone, Copy, PartialEq, Eq)]
pub enum Policy {
    /// The least finish tag (after Demers, Keshav and Shenker, 1989; Parekh and Gallager, 1993).
    Wfq,
    /// The least finish tag of those that have started in virtual time (after Bennett and Zhang, 1996).
    Wf2q,
    /// As `Wf2q`, with start values by the virtual time that passed while a tenant was not active
    /// (after Blanquer and Özden, 2001; the rule is this project's own).
    Msf2q,
    /// As `Wf2q`, with a start that is staggered by worker (after Mace and others, 2016).
    TwoDfq,
    /// As `TwoDfq`, with a virtual time that stays near the service: it is capped at the greatest finish at which a
    /// request was taken, and a Take whose request was not eligible lifts it to the request's eligible key (after
    /// Bennett and Zhang, 1996; the rules are this project's own).
    TwoDfqPlus,
}

/// How the cost of a request is estimated before it is done.
#[derive(Clone, Copy, PartialEq, Eq)]
pub enum Estimator {
    /// The cost that its submitter declared.
    Declared,
    /// The mean of its tenant's and kind's last eight costs, rounded down and at least 1; the initial value before any.
    Recent,
    /// The greatest of 1 and its tenant's and kind's costs, each decayed once for each that came later; the initial
    /// value counts as the oldest cost.
    Pessimistic,
}

/// The weights of the tenants, by number. Contracts see the list.
#[derive(Drop)]
pub struct Weights {
    items: Vec<u32>,
}

impl Model for Weights {
    ghost use Rattle.std.specs.Prelude.{List, ℕ};

    ghost Value = { List ℕ };

    ghost view = { λ w. w.items.items };
}

impl Weights {
    /// Takes the vector over; takes no memory.
    pub fn from_vec(items: Vec<u32>) -> Weights
        ensures { result ≡ items.items }
    {
        Weights { items }
    }

    /// Gives the vector back; takes no memory.
    pub fn into_vec(self) -> Vec<u32>
        ensures { result.items ≡ self }
    {
        self.items
    }

    /// The weights in order.
    pub fn as_slice(&self) -> &[u32]
        ensures { result.now ≡ self.now }
    {
        self.items.as_slice()
    }
}

/// A configuration that nobody has looked at: `check` says whether its numbers are in their limits.
#[derive(Drop)]
pub struct Config {
    /// Which limits the other numbers keep; the ranges below are the widest.
    pub limits: Limits,
    /// 1 to 4,096.
    pub workers: u32,
    /// One weight a tenant, each 1 to 100,000; 1 to 65,536 tenants.
    pub weights: Weights,
    /// 1 to 64; tenants times kinds is at most 1,048,576.
    pub kinds: u32,
    /// The number of entries that the history may have: 4 to 4,000,000,000.
    pub entries: u32,
    /// The number of requests that may wait at once: 1 to 1,048,576.
    pub requests: u32,
    pub policy: Policy,
    pub estimate: Estimator,
    /// The estimate before any completion, in microseconds: 1 to 1,000,000,000.
    pub initial: u64,
}

/// The first number of a configuration that is out of its limit, in the order of these variants. `most` is the greatest
/// number by the limits that the configuration keeps.
#[derive(Clone, Copy, Debug, PartialEq, Eq)]
pub enum ConfigFault {
    /// This number of workers; there may be 1 to `most`.
    Workers { count: u32, most: u32 },
    /// This number of tenants; there may be 1 to `most`.
    Tenants { count: u64, most: u32 },
    /// The least tenant whose weight is not from 1 to `most`.
    Weight { tenant: u32, most: u32 },
    /// This number of kinds; there may be 1 to 64.
    Kinds(u32),
    /// This number of pairs of a tenant and a kind; there may be up to `most`.
    Pairs { count: u64, most: u64 },
    /// This number of entries; there may be 4 to `most`.
    Entries { count: u32, most: u32 },
    /// This number of requests that may wait; there may be 1 to `most`.
    Requests { count: u32, most: u32 },
    /// This initial value, in microseconds; it may be 1 to 10^9.
    Initial(u64),
}

impl fmt::Display for ConfigFault {
    fn fmt<W: fmt::Write>(&self, f: &mut fmt::Formatter<W>) -> fmt::Result {
        match *self {
            ConfigFault::Workers { count, most } => {
                out_of_range(f, count as u64, "workers", 1, most as u64)
            }
            ConfigFault::Tenants { count, most } => {
                out_of_range(f, count, "tenants", 1, most as u64)
            }
            ConfigFault::Weight { tenant, most } => two_numbers(
                f,
                "the weight of tenant ",
                tenant as u64,
                " is not from 1 to ",
                most as u64,
                "",
            ),
            ConfigFault::Kinds(n) => out_of_range(f, n as u64, "kinds", 1, MOST_KINDS as u64),
            ConfigFault::Pairs { count, most } => {
                out_of_range(f, count, "pairs of a tenant and a kind", 1, most)
            }
            ConfigFault::Entries { count, most } => out_of_range(
                f,
                count as u64,
                "entries",
                LEAST_ENTRIES as u64,
                most as u64,
            ),
            ConfigFault::Requests { count, most } => {
                out_of_range(f, count as u64, "requests that may wait", 1, most as u64)
            }
            ConfigFault::Initial(n) => {
                out_of_range(f, n, "microseconds as the initial value", 1, GREATEST_COST)
            }
        }
    }
}

impl Error for ConfigFault {}

/// A configuration whose numbers are in their limits.
#[derive(Drop)]
pub struct Checked {
    config: Config,
}

impl Model for Checked {
    ghost use Rattle.fq_model.specs.declared.config.Config.{Config};
    ghost use Rattle.fq_model.specs.Limits.{InLimits};

    ghost Value = { Config };

    ghost view = { λ c. c.config };

    ghost invariant = { λ c. InLimits c.config };
}

impl Checked {
    /// Which limits the numbers keep.
    pub fn limits(&self) -> Limits
        ensures value { result ≡ self.now.limits }
        ensures own { IsWithinOwn self.now }
    {
        self.config.limits
    }

    /// 1 to 4,096.
    pub fn workers(&self) -> u32
        ensures value { result ≡ self.now.workers }
        ensures limits { InLimits self.now }
    {
        self.config.workers
    }

    /// 1 to 65,536.
    pub fn tenants(&self) -> u32
        ensures value { result ≡ length self.now.weights }
        ensures limits { InLimits self.now }
    {
        self.config.weights.as_slice().len() as u32
    }

    /// 1 to 100,000.
    pub fn weight(&self, t: u32) -> u32
        requires { t < length self.now.weights }
        ensures value { result ≡ slice_index self.now.weights t }
        ensures lower { 1 ≤ result }
        ensures upper { result ≤ GREATEST_WEIGHT }
    {
        self.config.weights.as_slice()[t as usize]
    }

    /// The weights in order.
    pub fn weights(&self) -> &[u32]
        ensures value { result.now ≡ self.now.weights }
        ensures limits { InLimits self.now }
    {
        self.config.weights.as_slice()
    }

    /// Gives the tenants other weights, one for each. Takes no memory.
    pub fn set_weights(&mut self, weights: &[u32])
        requires tenants { length weights.now ≡ length self.old.weights }
        requires in_range { All (IsWithin 1 (greatest_weight self.old.limits)) weights.now }
        ensures { self.new ≡ record self.old { weights = weights.now } }
    {
        self.config.weights.items.copy_from_slice(weights);
    }

    /// 1 to 64.
    pub fn kinds(&self) -> u32
        ensures value { result ≡ self.now.kinds }
        ensures limits { InLimits self.now }
    {
        self.config.kinds
    }

    /// 4 to 4,000,000,000.
    pub fn entries(&self) -> u32
        ensures value { result ≡ self.now.entries }
        ensures limits { InLimits self.now }
    {
        self.config.entries
    }

    /// 1 to 1,048,576.
    pub fn requests(&self) -> u32
        ensures value { result ≡ self.now.requests }
        ensures limits { InLimits self.now }
    {
        self.config.requests
    }

    /// Which waiting request a worker takes.
    pub fn policy(&self) -> Policy
        ensures value { result ≡ self.now.policy }
        ensures limits { InLimits self.now }
    {
        self.config.policy
    }

    /// How the cost of a request is estimated.
    pub fn estimate(&self) -> Estimator
        ensures value { result ≡ self.now.estimate }
        ensures limits { InLimits self.now }
    {
        self.config.estimate
    }

    /// 1 to 1,000,000,000 microseconds.
    pub fn initial(&self) -> u64
        ensures value { result ≡ self.now.initial }
        ensures limits { InLimits self.now }
    {
        self.config.initial
    }
}

impl Config {
    /// Looks at each number, in the order of the fault's variants. Takes no memory.
    pub fn check(self) -> Result<Checked, ConfigFault>
        ensures ok { IfOk result (λ c. c ≡ self) }
        ensures sound { IfOk result (λ _. config_fault self ≡ None) }
        ensures limits { IfOk result (λ _. InLimits self) }
        ensures fault { IfErr result (λ f. config_fault self ≡ Some f) }
    {
        match self.first_fault() {
            Some(fault) => Err(fault),
            None => Ok(Checked { config: self }),
        }
    }

    // The first number that is out of its limit.
    fn first_fault(&self) -> Option<ConfigFault>
        ensures first { result ≡ config_fault self.now }
        ensures limits { IfNone result (InLimits self.now) }
    {
        let limits = self.limits;
        let tenants = self.weights.as_slice().len();
        if is_outside(1, limits.most_workers(), self.workers) {
            return Some(ConfigFault::Workers {
                count: self.workers,
                most: limits.most_workers(),
            });
        }
        if tenants < 1 || tenants > limits.most_tenants() as usize {
            return Some(ConfigFault::Tenants {
                count: tenants as u64,
                most: limits.most_tenants(),
            });
        }
        let most = limits.greatest_weight();
        if let Some(tenant) = bad_weight(self.weights.as_slice(), most) {
            return Some(ConfigFault::Weight {
                tenant: tenant as u32,
                most,
            });
        }
        if is_outside(1, MOST_KINDS, self.kinds) {
            return Some(ConfigFault::Kinds(self.kinds));
        }
        let count = tenants as u64 * self.kinds as u64;
        if count > limits.most_pairs() {
            return Some(ConfigFault::Pairs {
                count,
                most: limits.most_pairs(),
            });
        }
        if is_outside(LEAST_ENTRIES, limits.most_entries(), self.entries) {
            return Some(ConfigFault::Entries {
                count: self.entries,
                most: limits.most_entries(),
            });
        }
        if is_outside(1, limits.most_requests(), self.requests) {
            return Some(ConfigFault::Requests {
                count: self.requests,
                most: limits.most_requests(),
            });
        }
        if self.initial < 1 || self.initial > GREATEST_COST {
            return Some(ConfigFault::Initial(self.initial));
        }
        None
    }
}

fn is_outside(low: u32, high: u32, n: u32) -> bool
    ensures { result ≡ is_outside low high n }
{
    n < low || n > high
}

// The least tenant whose weight is not from 1 to the greatest.
fn bad_weight(weights: &[u32], greatest: u32) -> Option<usize>
    ensures place { result ≡ bad_weight greatest weights.now }
    ensures none { IfNone result (All (IsWithin 1 greatest) weights.now) }
{
    weights.iter().position(|w| is_outside(1, greatest, *w))
}
