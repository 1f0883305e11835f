//! Why there is no fluid service.
ghost use Rattle.std.specs.Prelude.{◌≡◌};
ghost use Rattle.fluid_reference.specs.declared.fault.FluidFault.TheVariants as faults;

use fq_model::limits::MOST_CELLS;
use std::alloc::AllocError;

/// Why there is no fluid reference.
#[derive(Clone, Copy, Debug, PartialEq, Eq, thiserror::Error)]
pub enum FluidFault {
    /// This number of slots for this number of tenants is too great; there may be 4,000,000 cells.
    #[error("{slots} slots for {tenants} tenants, and there may be {MOST_CELLS} cells")]
    TooLong { slots: u64, tenants: u32 },
    /// There was no memory.
    #[error("out of memory")]
    NoMemory,
}

impl From<AllocError> for FluidFault {
    ghost from_gives = { λ _ fault. fault ≡ faults.NoMemory };

    fn from(_fault: AllocError) -> FluidFault {
        FluidFault::NoMemory
    }
}
