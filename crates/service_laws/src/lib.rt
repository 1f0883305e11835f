//! Laws of a service: they hold after each run of calls, by the definitions alone.
#![tactic(auto)]

pub mod laws;
