//! The chooser that suits a configuration: one of two, by how many tenants there are.
#![tactic(auto)]

pub mod bounds;
pub mod chooser;
