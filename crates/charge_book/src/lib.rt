//! The running request of each worker, and the charges of the tenants.
#![tactic(auto)]

pub mod book;
pub mod refusal;
pub mod row;
