//! The greatest of the completed costs, each decayed once for each that came later.
ghost use Rattle.std.specs.Prelude.{◌≡◌, ◌≤◌, ◌*◌, All, length};
ghost use Rattle.vt_fixed.specs.declared.limits.TheConstants.{GREATEST_COST};
ghost use Rattle.fq_model.specs.declared.config.Estimator.TheVariants.{Pessimistic};
ghost use Rattle.cost_estimate.specs.Tables.{HasGreatest};

use crate::estimate::Estimate;
use crate::pairs::Pairs;
use fq_model::config::Checked;
use std::alloc::{AllocError, Global};

/// One running maximum for each tenant and kind (after the estimates of Mace and others, 2016; the
/// numbers are this project's own). That is enough: the decay of the greater of two is the greater of
/// their decays.
#[derive(Drop)]
pub struct PessimisticCost {
    pairs: Pairs,
    initial: u64,
    greatest: Vec<u64>,
    ghost sized: { length greatest.items ≡ pairs.tenants * pairs.kinds },
    ghost bounded: { All (λ x. x ≤ GREATEST_COST) greatest.items },
}

impl Estimate for PessimisticCost {
    ghost rule = { λ _. Pessimistic };

    ghost opened_rule = { λ _. Pessimistic };

    ghost initial = { λ e. e.initial };

    ghost tenants = { λ e. e.pairs.tenants };

    ghost kinds = { λ e. e.pairs.kinds };

    ghost stands_for = { λ e cs. HasGreatest e.pairs.tenants e.pairs.kinds e.initial e.greatest.items cs };

    fn open(alloc: Global, config: &Checked) -> Result<Self, AllocError> {
        let pairs = Pairs::of(config);
        let initial = config.initial();
        let greatest = vec![in alloc; initial; pairs.count()]?;
        Ok(PessimisticCost {
            pairs,
            initial,
            greatest,
        })
    }

    fn now(&self, tenant: u32, kind: u32, _declared: u64) -> u64 {
        let place = self.pairs.place(tenant, kind);
        self.greatest[place].max(1)
    }

    fn learn(&mut self, tenant: u32, kind: u32, cost: u64) {
        let at = self.pairs.place(tenant, kind);
        self.greatest[at] = vt_fixed::decay(self.greatest[at]).max(cost);
    }
}
