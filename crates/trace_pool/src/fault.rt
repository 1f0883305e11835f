//! Why a trace is not served.
ghost use Rattle.std.specs.Prelude.{◌≡◌};
ghost use Rattle.trace_pool.specs.declared.fault.PoolFault.TheVariants as faults;

use fq_model::limits::MOST_ENTRIES;
use std::alloc::AllocError;

/// Why a trace is not served.
#[derive(Clone, Copy, Debug, PartialEq, Eq, thiserror::Error)]
pub enum PoolFault {
    /// The history might have this number of entries; there may be 4,194,304.
    #[error("the history would have {0} entries, and there may be {MOST_ENTRIES}")]
    TooManyEntries(u64),
    /// There was no memory.
    #[error("out of memory")]
    NoMemory,
}

impl From<AllocError> for PoolFault {
    ghost from_gives = { λ _ fault. fault ≡ faults.NoMemory };

    fn from(_fault: AllocError) -> PoolFault {
        PoolFault::NoMemory
    }
}
