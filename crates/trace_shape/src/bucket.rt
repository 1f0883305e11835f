//! Buckets of tokens.
ghost use Rattle.std.specs.Prelude.{◌≡◌, ◌*◌, ◌≤◌};
ghost use Rattle.fq_model.specs.Limits.{IsWithin};
ghost use Rattle.trace_shape.specs.Buckets.{full, taken, IsBucket};

use fq_model::limits::{GREATEST_COST, GREATEST_TRACE_MOMENT};
use program_model::trace::TraceRow;

/// The tokens of a tenant, as they were when its last request came and had taken its own.
#[derive(Clone, Copy)]
pub(crate) struct Bucket {
    /// In thousandths of a unit.
    pub(crate) level: u64,
    /// In microseconds.
    pub(crate) moment: u64,
}

impl Bucket {
    /// A full bucket, at moment 0.
    pub(crate) fn full(capacity: u64) -> Bucket
        ensures { result ≡ full capacity }
    {
        Bucket {
            level: capacity,
            moment: 0,
        }
    }

    /// The bucket once a request has taken its tokens, at the first moment at which they are there. The capacity is in
    /// thousandths of a unit, and so is the bucket's gain in a microsecond.
    #[tactic(auto, unfolding(crate::specs::Buckets::taken))]
    pub(crate) fn taken(self, gain: u64, capacity: u64, row: &TraceRow) -> Bucket
        requires bucket { IsBucket capacity self }
        requires gains { IsWithin 1 GREATEST_COST gain }
        requires capacity { capacity ≤ 1000 * GREATEST_COST }
        requires moment { row.now.moment ≤ GREATEST_TRACE_MOMENT }
        requires fits { 1000 * row.now.declared ≤ capacity }
        ensures { result ≡ taken gain capacity self row.now }
    {
        let tokens = 1000 * row.declared;
        let wait = tokens.saturating_sub(self.level).div_ceil(gain);
        let moment = row.moment.max(self.moment + wait);
        let gained = gain as u128 * (moment - self.moment) as u128;
        let level = (self.level as u128 + gained).min(capacity as u128) as u64;
        Bucket {
            level: level - tokens,
            moment,
        }
    }
}
