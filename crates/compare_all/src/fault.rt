//! Why there is no comparison.
ghost use Rattle.std.specs.Prelude.{◌≡◌};
ghost use Rattle.compare_all.specs.declared.fault.CompareFault.TheVariants as faults;

use fq_model::limits::{MOST_CELLS, MOST_ENTRIES};
use std::alloc::{AllocError, AllocFailed};
use thiserror::Error;

/// Why the policies and estimators are not compared on a trace: the first reason, in the order of these variants.
#[derive(Clone, Copy, Debug, PartialEq, Eq, Error)]
pub enum CompareFault {
    /// Each history would have this number of entries; there may be 4,194,304.
    #[error("each history would have {0} entries, and there may be {MOST_ENTRIES}")]
    TooManyEntries(u64),
    /// The first row whose report would have too many cells, counted from 0, and how many; there may be 4,000,000.
    #[error("the report of row {row} would have {cells} cells, and there may be {MOST_CELLS}")]
    TooLong { row: u32, cells: u64 },
    /// Memory ran out.
    #[error("out of memory")]
    NoMemory,
}

impl From<AllocError> for CompareFault {
    ghost from_gives = { λ _ fault. fault ≡ faults.NoMemory };

    fn from(_: AllocError) -> CompareFault {
        CompareFault::NoMemory
    }
}

impl<T: Drop> From<AllocFailed<T>> for CompareFault {
    ghost from_gives = { λ _ fault. fault ≡ faults.NoMemory };

    fn from(_: AllocFailed<T>) -> CompareFault {
        CompareFault::NoMemory
    }
}
