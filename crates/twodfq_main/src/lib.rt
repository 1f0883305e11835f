//! The program over any source, sinks and clock.
#![tactic(auto)]

mod compare;
pub mod ending;
mod live;
mod plain;
pub mod program;
mod reading;
mod statuses;
