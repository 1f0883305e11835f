//! Lag reports: how far each tenant of a history lags behind the fluid reference.
#![tactic(auto)]

pub mod automatic;
mod course;
pub mod extremes;
pub mod fault;
mod lines;
pub mod printing;
mod reading;
pub mod report;
pub mod reporting;
mod samples;
mod work;
