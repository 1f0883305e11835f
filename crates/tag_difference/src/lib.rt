//! The greatest differences of two tenants' starts, at the prefixes of a past in which both wait.
#![tactic(auto)]

pub mod fault;
pub mod found;
pub mod gap;
pub mod pair;
