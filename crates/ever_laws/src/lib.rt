//! How far one tenant may get ahead of another that waits, under `2dfq+`: whatever came before, and whatever the costs.
#![tactic(auto)]

pub mod examples;
pub mod laws;
