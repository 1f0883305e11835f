//! The names of tenants and kinds, numbered in the order in which they were added.
#![tactic(auto)]

pub mod fault;
pub mod kinds;
pub mod kinds_builder;
pub mod tenants;
pub mod tenants_builder;
