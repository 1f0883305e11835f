//! The level to which a slot serves the backlogs of tenants.
#![tactic(auto)]

pub mod gifts;
pub mod levels;
