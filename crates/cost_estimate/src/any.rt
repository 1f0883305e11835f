//! The estimator that a configuration names.
ghost use Rattle.cost_estimate.specs.AnyCost.{rule_of, initial_of, tenants_of, kinds_of, StandsFor};

use crate::declared::DeclaredCost;
use crate::estimate::Estimate;
use crate::pessimistic::PessimisticCost;
use crate::recent::RecentCost;
use fq_model::config::{Checked, Estimator};
use std::alloc::{AllocError, Global};

/// The estimator that the configuration names, one of three.
#[derive(Drop)]
pub enum AnyCost {
    Declared(DeclaredCost),
    Recent(RecentCost),
    Pessimistic(PessimisticCost),
}

impl Estimate for AnyCost {
    ghost rule = { rule_of };

    ghost opened_rule = { λ named. named };

    ghost initial = { initial_of };

    ghost tenants = { tenants_of };

    ghost kinds = { kinds_of };

    ghost stands_for = { StandsFor };

    fn open(alloc: Global, config: &Checked) -> Result<Self, AllocError> {
        match config.estimate() {
            Estimator::Declared => Ok(AnyCost::Declared(DeclaredCost::open(alloc, config)?)),
            Estimator::Recent => Ok(AnyCost::Recent(RecentCost::open(alloc, config)?)),
            Estimator::Pessimistic => {
                Ok(AnyCost::Pessimistic(PessimisticCost::open(alloc, config)?))
            }
        }
    }

    fn now(&self, tenant: u32, kind: u32, declared: u64) -> u64 {
        match self {
            AnyCost::Declared(inner) => inner.now(tenant, kind, declared),
            AnyCost::Recent(inner) => inner.now(tenant, kind, declared),
            AnyCost::Pessimistic(inner) => inner.now(tenant, kind, declared),
        }
    }

    fn learn(&mut self, tenant: u32, kind: u32, cost: u64) {
        match self {
            AnyCost::Declared(inner) => inner.learn(tenant, kind, cost),
            AnyCost::Recent(inner) => inner.learn(tenant, kind, cost),
            AnyCost::Pessimistic(inner) => inner.learn(tenant, kind, cost),
        }
    }
}
