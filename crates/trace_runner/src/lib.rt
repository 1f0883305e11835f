//! The simulated history of a trace: its requests come at the moments of their rows, have the costs of their rows, and
//! are taken by workers of which none is idle while a request waits.
#![tactic(auto)]

mod agenda;
pub mod fault;
pub mod needed;
pub mod runner;
mod staff;
