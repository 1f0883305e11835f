//! The commands and the output of the program, scripts, journals and traces, and the meaning of all of these.
#![tactic(auto)]

pub mod argument;
pub mod command;
pub mod compare;
pub mod ending;
pub mod explained;
pub mod fault;
pub mod name;
pub mod numbers;
pub mod trace;
pub mod verdict;
pub mod version;
