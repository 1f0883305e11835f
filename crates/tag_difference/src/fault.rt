//! Why there is no gap.
ghost use Rattle.std.specs.Prelude.{◌≡◌};
ghost use Rattle.tag_difference.specs.declared.fault.GapFault.TheVariants as faults;

use std::alloc::AllocError;

/// Why there is no gap of two tenants.
#[derive(Clone, Copy, Debug, PartialEq, Eq, thiserror::Error)]
pub enum GapFault {
    /// No tenant has this number.
    #[error("no tenant has the number {0}")]
    UnknownTenant(u32),
    /// The two are one tenant.
    #[error("the two tenants are one")]
    SameTenant,
    /// The least request that is not as declared.
    #[error("request {0} is not as declared")]
    NotDeclared(u32),
    /// There was no memory.
    #[error("out of memory")]
    NoMemory,
}

impl From<AllocError> for GapFault {
    ghost from_gives = { λ _ fault. fault ≡ faults.NoMemory };

    fn from(_fault: AllocError) -> GapFault {
        GapFault::NoMemory
    }
}
