//! Why there is no lead.
ghost use Rattle.std.specs.Prelude.{◌≡◌};
ghost use Rattle.tag_lead.specs.declared.fault.LeadFault.TheVariants as faults;

use program_model::verdict::Verdict;
use std::alloc::AllocError;
use tag_difference::fault::GapFault;
use thiserror::Error;

/// Why entries have no lead of one tenant over another.
#[derive(Clone, Copy, Debug, Error)]
pub enum LeadFault {
    /// They are not a legal history: the verdict on them.
    #[error("the entries are not a legal history")]
    NotLegal(Verdict),
    /// There was no memory.
    #[error("out of memory")]
    NoMemory,
}

impl From<AllocError> for LeadFault {
    ghost from_gives = { λ _ fault. fault ≡ faults.NoMemory };

    fn from(_fault: AllocError) -> LeadFault {
        LeadFault::NoMemory
    }
}

/// Why entries have no lead of two tenants that are given by any numbers.
#[derive(Clone, Copy, Debug, Error)]
pub enum PairFault {
    /// No entries have one: a tenant is unknown, or the two are one.
    #[error("{0}")]
    Tenants(GapFault),
    /// These entries have none.
    #[error("{0}")]
    Entries(LeadFault),
}
