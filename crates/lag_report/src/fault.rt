//! Why there is no report.
ghost use Rattle.std.specs.Prelude.{◌≡◌};
ghost use Rattle.lag_report.specs.declared.fault.ReportFault.TheVariants as faults;
ghost use Rattle.lag_report.specs.Faults.{fault_from};

use fluid_reference::fault::FluidFault;
use fq_model::limits::MOST_CELLS;
use std::alloc::AllocError;
use thiserror::Error;

/// Why there is no report of a history.
#[derive(Clone, Copy, Debug, PartialEq, Eq, Error)]
pub enum ReportFault {
    /// This request, the least of its kind, waits or runs, so that its cost is not known.
    #[error("request {0} is not done")]
    Unfinished(u32),
    /// Too many cells, by this number of slots and this number of tenants; there may be 4,000,000.
    #[error("{slots} slots for {tenants} tenants, and there may be {MOST_CELLS} cells")]
    TooLong { slots: u64, tenants: u32 },
    /// Memory ran out.
    #[error("out of memory")]
    NoMemory,
}

impl From<AllocError> for ReportFault {
    ghost from_gives = { λ _ fault. fault ≡ faults.NoMemory };

    fn from(_: AllocError) -> ReportFault {
        ReportFault::NoMemory
    }
}

impl From<FluidFault> for ReportFault {
    ghost from_gives = { λ fluid fault. fault ≡ fault_from fluid };

    fn from(fault: FluidFault) -> ReportFault {
        match fault {
            FluidFault::TooLong { slots, tenants } => ReportFault::TooLong { slots, tenants },
            FluidFault::NoMemory => ReportFault::NoMemory,
        }
    }
}
