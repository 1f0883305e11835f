//! A pool of threads that serves a trace: the submitters submit its rows, in whatever order they come to it, and the
//! workers count their costs up.
#![tactic(auto)]

mod dealing;
pub mod fault;
mod gate;
mod hands;
pub mod needed;
pub mod serving;
