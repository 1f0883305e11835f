//! Why a request is not admitted.
use std::error::Error;
use std::fmt;

/// The first reason, in the order of these variants, for which a request is not admitted.
#[derive(Clone, Copy, Debug, PartialEq, Eq)]
pub enum Refusal {
    /// All places are taken.
    TooManyWait,
    /// As many requests of its tenant wait as may.
    TenantFull,
}

impl fmt::Display for Refusal {
    fn fmt<W: fmt::Write>(&self, f: &mut fmt::Formatter<W>) -> fmt::Result {
        match self {
            Refusal::TooManyWait => write!(f, "all places are taken"),
            Refusal::TenantFull => write!(f, "too many requests of the tenant wait"),
        }
    }
}

impl Error for Refusal {}
