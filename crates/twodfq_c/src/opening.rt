//! Opening a scheduler from plain numbers.
ghost use Rattle.std.specs.Prelude.{◌≡◌, ◌≤◌, length, IfOk, IfErr, IfSome, IfNone, Some, None};
ghost use Rattle.fq_model.specs.declared.config.Config.{Config};
ghost use Rattle.twodfq_c.specs.declared.opening.Refusal.TheVariants as refusal;
ghost use Rattle.fq_model.specs.Limits.{config_fault};
ghost use Rattle.twodfq_c.specs.Opening.{OpensWith, HoldsOpened, IsConfigOf, WhyRefused, unnamed_number, kept_of, limits_of};
ghost use Rattle.twodfq_c.specs.Opening.{status, fault_status, policy_number, estimator_number};

use crate::handle::Handle;
use fq_model::config::{Config, ConfigFault, Estimator, Policy, Weights};
use fq_model::limits::{Limits, MOST_TENANTS, MOST_WORKERS};
use sched_state::Recent;
use std::alloc::{AllocError, Global};

/// A configuration without its weights. `policy` is 0 for wfq, 1 for wf2q, 2 for msf2q, 3 for 2dfq, 4 for 2dfq+;
/// `estimate` is 0 for declared, 1 for recent, 2 for pessimistic. `keep` is how many of the last entries can be read;
/// 0, and a number above that of the entries, keeps all. The other numbers have the widest limits of `fq_model`'s
/// `Config`; a history may be long if `keep` is not 0.
#[repr(C)]
#[derive(Clone, Copy, Debug, PartialEq, Eq)]
pub struct Opening {
    pub workers: u32,
    pub kinds: u32,
    pub entries: u32,
    pub requests: u32,
    pub policy: u32,
    pub estimate: u32,
    pub initial: u64,
    pub keep: u32,
}

/// Why no scheduler was opened.
#[derive(Clone, Copy, Debug, PartialEq, Eq)]
pub(crate) enum Refusal {
    /// The handle holds one already.
    AlreadyOpen,
    /// No policy has the number.
    Policy,
    /// No estimator has the number.
    Estimator,
    /// There was not enough memory.
    NoMemory,
    /// A number is out of its limits.
    Config(ConfigFault),
}

impl From<AllocError> for Refusal {
    ghost from_gives = { λ _ why. why ≡ refusal.NoMemory };

    fn from(_fault: AllocError) -> Refusal {
        Refusal::NoMemory
    }
}

/// Opens a scheduler in a handle that holds none.
pub(crate) fn open(
    handle: &mut Handle,
    alloc: Global,
    opening: &Opening,
    weights: &[u32],
) -> Result<(), Refusal>
    ensures { OpensWith handle.old.slot.held opening.now weights.now result handle.new.slot.held }
{
    if handle.is_open {
        return Err(Refusal::AlreadyOpen);
    }
    *handle = opened(alloc, opening, weights)?;
    Ok(())
}

// A handle that holds a scheduler of these numbers.
fn opened(alloc: Global, opening: &Opening, weights: &[u32]) -> Result<Handle, Refusal>
    ensures handle { IfOk result (λ handle. HoldsOpened opening.now weights.now handle.slot.held) }
    ensures why { IfErr result (WhyRefused opening.now weights.now) }
{
    let config = opening.config(alloc, weights)?;
    let checked = match config.check() {
        Ok(checked) => checked,
        Err(fault) => return Err(Refusal::Config(fault)),
    };
    let scheduler = Recent::open_keeping(alloc, checked, opening.kept())?;
    let Ok(served) = Box::new(alloc, scheduler) else {
        return Err(Refusal::NoMemory);
    };
    Ok(Handle::holding(served))
}

/// 0 where a scheduler was opened, and else the number of the refusal.
pub(crate) fn status(outcome: Result<(), Refusal>) -> u32
    ensures { result ≡ status outcome }
{
    match outcome {
        Ok(()) => 0,
        Err(Refusal::AlreadyOpen) => 1,
        Err(Refusal::Policy) => 2,
        Err(Refusal::Estimator) => 3,
        Err(Refusal::NoMemory) => 4,
        Err(Refusal::Config(fault)) => fault_status(fault),
    }
}

fn fault_status(fault: ConfigFault) -> u32
    ensures { result ≡ fault_status fault }
{
    match fault {
        ConfigFault::Workers { .. } => 16,
        ConfigFault::Tenants { .. } => 17,
        ConfigFault::Weight { .. } => 18,
        ConfigFault::Kinds(_) => 19,
        ConfigFault::Pairs { .. } => 20,
        ConfigFault::Entries { .. } => 21,
        ConfigFault::Requests { .. } => 22,
        ConfigFault::Initial(_) => 23,
    }
}

impl Opening {
    // How many of the last entries are kept.
    fn kept(&self) -> u32
        ensures { result ≡ kept_of self.now }
    {
        if self.keep == 0 || self.keep > self.entries {
            self.entries
        } else {
            self.keep
        }
    }

    // The widest limits, for a history that is kept whole or for a long one.
    fn limits(&self) -> Limits
        ensures { result ≡ limits_of self.now }
    {
        if self.keep == 0 {
            Limits::Whole
        } else {
            Limits::Long
        }
    }

    // The first fault, if there are more weights than there may be tenants.
    fn crowd_fault(&self, weights: &[u32]) -> Option<ConfigFault>
        ensures some { IfSome result (λ why. (c : Config) → IsConfigOf self.now weights.now c
            → config_fault c ≡ Some why) }
        ensures none { IfNone result (length weights.now ≤ MOST_TENANTS) }
    {
        if weights.len() <= MOST_TENANTS as usize {
            None
        } else if self.workers < 1 || self.workers > MOST_WORKERS {
            Some(ConfigFault::Workers {
                count: self.workers,
                most: MOST_WORKERS,
            })
        } else {
            Some(ConfigFault::Tenants {
                count: weights.len() as u64,
                most: MOST_TENANTS,
            })
        }
    }

    // The configuration, of which only the number of weights was looked at: no more of them are read than there may be
    // tenants.
    fn config(&self, alloc: Global, weights: &[u32]) -> Result<Config, Refusal>
        ensures config { IfOk result (IsConfigOf self.now weights.now) }
        ensures named { IfOk result (λ _. unnamed_number self.now ≡ None) }
        ensures why { IfErr result (WhyRefused self.now weights.now) }
    {
        let Some(policy) = policy_of(self.policy) else {
            return Err(Refusal::Policy);
        };
        let Some(estimate) = estimator_of(self.estimate) else {
            return Err(Refusal::Estimator);
        };
        if let Some(fault) = self.crowd_fault(weights) {
            return Err(Refusal::Config(fault));
        }
        Ok(Config {
            limits: self.limits(),
            workers: self.workers,
            weights: Weights::from_vec(Vec::from_slice(alloc, weights)?),
            kinds: self.kinds,
            entries: self.entries,
            requests: self.requests,
            policy,
            estimate,
            initial: self.initial,
        })
    }
}

fn policy_of(number: u32) -> Option<Policy>
    ensures some { IfSome result (λ policy. policy_number policy ≡ number) }
    ensures none { IfNone result (5 ≤ number) }
{
    match number {
        0 => Some(Policy::Wfq),
        1 => Some(Policy::Wf2q),
        2 => Some(Policy::Msf2q),
        3 => Some(Policy::TwoDfq),
        4 => Some(Policy::TwoDfqPlus),
        _ => None,
    }
}

fn estimator_of(number: u32) -> Option<Estimator>
    ensures some { IfSome result (λ estimator. estimator_number estimator ≡ number) }
    ensures none { IfNone result (3 ≤ number) }
{
    match number {
        0 => Some(Estimator::Declared),
        1 => Some(Estimator::Recent),
        2 => Some(Estimator::Pessimistic),
        _ => None,
    }
}
