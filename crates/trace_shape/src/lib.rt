//! Traces as a bucket of tokens for each tenant lets their requests through.
#![tactic(auto)]

mod bucket;
mod copies;
pub mod fault;
pub mod laws;
pub mod shaping;
