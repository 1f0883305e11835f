//! Why a trace is not shaped.
ghost use Rattle.std.specs.Prelude.{◌≡◌};
ghost use Rattle.trace_shape.specs.declared.fault.ShapeFault.TheVariants as faults;

use fq_model::limits::GREATEST_TRACE_MOMENT;
use std::alloc::{AllocError, AllocFailed};
use thiserror::Error;

/// Why a trace is not shaped: the first reason, in the order of these variants.
#[derive(Clone, Copy, Debug, PartialEq, Eq, Error)]
pub enum ShapeFault {
    /// The number of the first row that declares more than a full bucket holds. It could never come.
    #[error("request {0} declares more than a bucket holds")]
    TooBig(u32),
    /// The number of the first row that would come after the greatest moment of a trace.
    #[error("request {0} would come after {GREATEST_TRACE_MOMENT}")]
    TooLate(u32),
    /// Memory ran out.
    #[error("out of memory")]
    NoMemory,
}

impl From<AllocError> for ShapeFault {
    ghost from_gives = { λ _ fault. fault ≡ faults.NoMemory };

    fn from(_: AllocError) -> ShapeFault {
        ShapeFault::NoMemory
    }
}

impl<T: Drop> From<AllocFailed<T>> for ShapeFault {
    ghost from_gives = { λ _ fault. fault ≡ faults.NoMemory };

    fn from(_: AllocFailed<T>) -> ShapeFault {
        ShapeFault::NoMemory
    }
}
