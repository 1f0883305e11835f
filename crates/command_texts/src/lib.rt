//! The answers of commands to their inputs: one module a command. Nothing here reads or writes, or starts a thread.
//!
//! Large values are dropped by a call of `drop`: the drop is then proved once, and not anew on each path of each
//! function.
#![tactic(auto)]

pub mod checking;
pub mod generation;
pub mod history;
pub mod messages;
pub mod run;
pub mod script;
mod serve;
pub mod shaping;
pub mod traces;
