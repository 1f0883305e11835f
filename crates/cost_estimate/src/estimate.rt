//! The trait of every estimator.
ghost use Rattle.std.specs.Prelude.{◌≡◌, ◌<◌, ◌≤◌, ℕ, List, [], length, IfOk};
ghost use Rattle.fq_model.specs.Charge.{Completed};
ghost use Rattle.fq_model.specs.declared.config.Estimator.{Estimator};
ghost use Rattle.cost_estimate.specs.Estimate.{IsEstimate, Learns};

use fq_model::config::Checked;
use fq_model::limits::GREATEST_COST;
use std::alloc::{AllocError, Global};

/// Estimates the cost of a request, in microseconds, from the costs of the completed requests of its tenant
/// and kind. Not every cost is kept, so an estimator has no list of them: its meaning is which lists it
/// stands for, the newest cost first.
pub trait Estimate: Sized {
    /// By which rule it estimates.
    ghost rule: { Self → Estimator };

    /// By which it estimates after it was opened with a configuration that names this one.
    ghost opened_rule: { Estimator → Estimator };

    /// Its estimate where there is no completed request yet.
    ghost initial: { Self → ℕ };

    /// How many tenants there are.
    ghost tenants: { Self → ℕ };

    /// How many kinds there are.
    ghost kinds: { Self → ℕ };

    /// It stands for these completed requests, the newest first.
    ghost stands_for: { Self → List Completed → Type 0 };

    /// An estimator that has seen no completed request. All its memory is taken here.
    fn open(alloc: Global, config: &Checked) -> Result<Self, AllocError>
        ensures rule { IfOk result (λ e. rule e ≡ opened_rule config.now.estimate) }
        ensures initial { IfOk result (λ e. initial e ≡ config.now.initial) }
        ensures tenants { IfOk result (λ e. tenants e ≡ length config.now.weights) }
        ensures kinds { IfOk result (λ e. kinds e ≡ config.now.kinds) }
        ensures empty { IfOk result (λ e. stands_for e []) };

    /// The estimate now of a request of this tenant and kind with this declared cost, both in microseconds.
    fn now(&self, tenant: u32, kind: u32, declared: u64) -> u64
        requires tenant { tenant < tenants self.now }
        requires kind { kind < kinds self.now }
        ensures { IsEstimate (stands_for self.now) (rule self.now) (initial self.now) tenant kind declared result };

    /// A request of this tenant and kind was completed at this cost, in microseconds: at most 1,000,000,000.
    fn learn(&mut self, tenant: u32, kind: u32, cost: u64)
        requires tenant { tenant < tenants self.old }
        requires kind { kind < kinds self.old }
        requires cost { cost ≤ GREATEST_COST }
        ensures rule { rule self.new ≡ rule self.old }
        ensures initial { initial self.new ≡ initial self.old }
        ensures tenants { tenants self.new ≡ tenants self.old }
        ensures kinds { kinds self.new ≡ kinds self.old }
        ensures learned { Learns (stands_for self.old) (stands_for self.new) tenant kind cost };
}
