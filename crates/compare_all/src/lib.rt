//! A trace under the published policies and all estimators: the row of each pair, and the best row.
#![tactic(auto)]

pub mod best;
pub mod comparing;
pub mod fault;
pub mod printing;
mod rows;
