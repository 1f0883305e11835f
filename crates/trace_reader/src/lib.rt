//! Traces: their reader, which names the first fault of a text, their printer, the generator of traces of random
//! numbers, and the configuration of a scheduler that serves a trace.
#![tactic(auto)]

mod draft;
pub mod fault;
mod fields;
pub mod generating;
pub mod messages;
pub mod opening;
pub mod printing;
pub mod reading;
pub mod trace;
