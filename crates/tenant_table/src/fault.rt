//! Why a name is not added.
ghost use Rattle.std.specs.Prelude.{◌≡◌};
ghost use Rattle.tenant_table.specs.declared.fault.NameFault.TheVariants.{NoMemory};

use fq_model::limits::TEXT_WEIGHT;
use std::alloc::AllocError;
use thiserror::Error;

/// The first reason, in the order of these variants, for which a name is not added.
#[derive(Clone, Copy, Debug, PartialEq, Eq, Error)]
pub enum NameFault {
    /// It is not a name: it has not 1 to 64 bytes, or one of them is no ASCII letter, digit, `_`, `-`
    /// or `.`.
    #[error("not a name: it has to be 1 to 64 ASCII letters, digits, `_`, `-` or `.`")]
    Word,
    /// A tenant's weight, which is not from 1 to 1,000.
    #[error("the weight {0} is not from 1 to {TEXT_WEIGHT}")]
    Weight(u32),
    /// The number that has the name already.
    #[error("number {0} has the name already")]
    Twice(u32),
    /// The greatest number of names, which are there already.
    #[error("there are {0} names, and there may be no more")]
    TooMany(u32),
    /// There was no memory for the name.
    #[error("out of memory")]
    NoMemory,
}

impl From<AllocError> for NameFault {
    ghost from_gives = { λ _ fault. fault ≡ NoMemory };

    fn from(_: AllocError) -> NameFault {
        NameFault::NoMemory
    }
}
