//! Costs as their submitters declare them.
ghost use Rattle.fq_model.specs.declared.config.Estimator.TheVariants.{Declared};

use crate::estimate::Estimate;
use crate::pairs::Pairs;
use fq_model::config::Checked;
use std::alloc::{AllocError, Global};

/// Takes the declared number; completed requests make no difference.
#[derive(Drop)]
pub struct DeclaredCost {
    pairs: Pairs,
    initial: u64,
}

impl Estimate for DeclaredCost {
    ghost rule = { λ _. Declared };

    ghost opened_rule = { λ _. Declared };

    ghost initial = { λ e. e.initial };

    ghost tenants = { λ e. e.pairs.tenants };

    ghost kinds = { λ e. e.pairs.kinds };

    ghost stands_for = { λ _ _. Unit {0} };

    fn open(_alloc: Global, config: &Checked) -> Result<Self, AllocError> {
        Ok(DeclaredCost {
            pairs: Pairs::of(config),
            initial: config.initial(),
        })
    }

    fn now(&self, _tenant: u32, _kind: u32, declared: u64) -> u64 {
        declared
    }

    fn learn(&mut self, _tenant: u32, _kind: u32, _cost: u64) {}
}
