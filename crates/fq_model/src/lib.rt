//! A scheduler's configuration, entries, calls and replies, the numbers of a report of its history, and the definitions
//! of all of these.
#![tactic(auto)]

pub mod config;
pub mod event;
pub mod fluid;
pub mod job;
pub mod lag;
pub mod level;
pub mod limits;
pub mod messages;
pub mod names;
pub mod parts;
pub mod words;
