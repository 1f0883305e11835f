//! The mean of the last eight completed costs.
ghost use Rattle.std.specs.Prelude.{◌≡◌, ◌*◌, [], All, IfOk, length, replicate};
ghost use Rattle.circular_buffer.specs.Buffer.{buffer};
ghost use Rattle.fq_model.specs.Charge.{recent_mean};
ghost use Rattle.fq_model.specs.declared.config.Estimator.TheVariants.{Recent};
ghost use Rattle.cost_estimate.specs.Tables.{IsRing, HasRecent};

use crate::estimate::Estimate;
use crate::pairs::Pairs;
use circular_buffer::HeapCircularBuffer;
use fq_model::config::Checked;
use std::alloc::{AllocError, Global};

/// The last eight costs of each tenant and kind.
#[derive(Drop)]
pub struct RecentCost {
    pairs: Pairs,
    initial: u64,
    rings: Vec<HeapCircularBuffer<u64>>,
    ghost sized: { length rings.items ≡ pairs.tenants * pairs.kinds },
    ghost in_range: { All IsRing rings.items },
}

impl Estimate for RecentCost {
    ghost rule = { λ _. Recent };

    ghost opened_rule = { λ _. Recent };

    ghost initial = { λ e. e.initial };

    ghost tenants = { λ e. e.pairs.tenants };

    ghost kinds = { λ e. e.pairs.kinds };

    ghost stands_for = { λ e cs. HasRecent e.pairs.tenants e.pairs.kinds e.rings.items cs };

    fn open(alloc: Global, config: &Checked) -> Result<Self, AllocError> {
        let pairs = Pairs::of(config);
        let rings = empty_rings(alloc, pairs.count())?;
        Ok(RecentCost {
            pairs,
            initial: config.initial(),
            rings,
        })
    }

    fn now(&self, tenant: u32, kind: u32, _declared: u64) -> u64 {
        let place = self.pairs.place(tenant, kind);
        mean_of(&self.rings[place], self.initial)
    }

    fn learn(&mut self, tenant: u32, kind: u32, cost: u64) {
        let at = self.pairs.place(tenant, kind);
        let ring = &mut self.rings[at];
        ring.push_front(cost);
    }
}

// `count` rings for eight costs, all empty.
fn empty_rings(alloc: Global, count: usize) -> Result<Vec<HeapCircularBuffer<u64>>, AllocError>
    ensures { IfOk result (λ rings. rings.items ≡ replicate count (buffer [] 8)) }
{
    let mut rings = Vec::new(alloc);
    for _ in 0..count {
        rings.push(HeapCircularBuffer::with_capacity(alloc, 8)?)?;
    }
    Ok(rings)
}

// The mean of the costs in the ring, rounded down and at least 1, or the initial value where it has none.
fn mean_of(ring: &HeapCircularBuffer<u64>, initial: u64) -> u64
    requires { IsRing ring.now }
    ensures { result ≡ recent_mean initial ring.now.items }
{
    let count = ring.len();
    if count == 0 {
        return initial;
    }
    let mut total: u64 = 0;
    for i in 0..count {
        if let Some(cost) = ring.get(i) {
            total += *cost;
        }
    }
    (total / count as u64).max(1)
}
