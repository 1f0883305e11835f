//! The words of a command line, read by one table of the commands, their options, and the values and defaults of these.
#![tactic(auto)]

pub mod command;
mod given;
pub mod options;
mod table;
