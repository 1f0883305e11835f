//! Why a trace was not read, or not generated.
ghost use Rattle.std.specs.Prelude.{◌≡◌};
ghost use Rattle.trace_reader.specs.declared.fault.RecordError.TheVariants.{NoMemory};
ghost use Rattle.trace_reader.specs.declared.fault.TraceFault.TheVariants as trace_faults;
ghost use Rattle.trace_reader.specs.declared.fault.GenFault.TheVariants as gen_faults;
ghost use Rattle.trace_reader.specs.Reading.{fault_at};

use fq_model::limits::{MOST_ROWS, TEXT_TENANTS};
use program_model::fault::TraceKind;
use std::alloc::{AllocError, AllocFailed};
use thiserror::Error;

/// Why a trace was not read.
#[derive(Clone, Copy, Debug, PartialEq, Eq, Error)]
pub enum TraceFault {
    /// The first fault: the number of its record, counted from 1, and the kind of the fault.
    #[error("line {line}: {kind}")]
    At { line: u64, kind: TraceKind },
    /// Memory ran out.
    #[error("out of memory")]
    NoMemory,
}

impl From<AllocError> for TraceFault {
    ghost from_gives = { λ _ fault. fault ≡ trace_faults.NoMemory };

    fn from(_: AllocError) -> TraceFault {
        TraceFault::NoMemory
    }
}

/// Why a trace was not generated: the first reason, in the order of these variants.
#[derive(Clone, Copy, Debug, PartialEq, Eq, Error)]
pub enum GenFault {
    /// How many tenants were asked for, which is not from 1 to 4,096.
    #[error("the number of tenants {0} is not from 1 to {TEXT_TENANTS}")]
    Tenants(u32),
    /// How many requests were asked for, which is over 262,144.
    #[error("the number of requests {0} is over {MOST_ROWS}")]
    Requests(u32),
    /// Memory ran out.
    #[error("out of memory")]
    NoMemory,
}

impl From<AllocError> for GenFault {
    ghost from_gives = { λ _ fault. fault ≡ gen_faults.NoMemory };

    fn from(_: AllocError) -> GenFault {
        GenFault::NoMemory
    }
}

/// Why a record was not read.
#[derive(Clone, Copy, Debug, Error)]
pub(crate) enum RecordError {
    /// The record's first fault.
    #[error("{0}")]
    Fault(TraceKind),
    /// Memory ran out.
    #[error("out of memory")]
    NoMemory,
}

impl RecordError {
    /// This fault, with the number of its record.
    pub(crate) fn at(self, line: u64) -> TraceFault
        ensures { result ≡ fault_at line self }
    {
        match self {
            RecordError::Fault(kind) => TraceFault::At { line, kind },
            RecordError::NoMemory => TraceFault::NoMemory,
        }
    }
}

impl From<AllocError> for RecordError {
    ghost from_gives = { λ _ e. e ≡ NoMemory };

    fn from(_: AllocError) -> RecordError {
        RecordError::NoMemory
    }
}

impl<T: Drop> From<AllocFailed<T>> for RecordError {
    ghost from_gives = { λ _ e. e ≡ NoMemory };

    fn from(_: AllocFailed<T>) -> RecordError {
        RecordError::NoMemory
    }
}
