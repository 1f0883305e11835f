//! Workers that are kept free for small requests: the demand of small requests, and when a free worker declines.
//!
//! Cores are kept for short requests by DARC (Demoulin and others, When Idling is Ideal, 2021), which knows their types
//! and profiles the demand of each. Here the demand is measured by classes of size, and a part of all time bounds the
//! cost.
#![tactic(auto)]

pub mod class;
#[cfg(test)]
mod class_tests;
pub mod credit;
#[cfg(test)]
mod credit_tests;
pub mod demand;
#[cfg(test)]
mod demand_tests;
pub mod laws;
pub mod reserve;
#[cfg(test)]
mod reserve_tests;
pub mod rule;
#[cfg(test)]
mod rule_tests;

pub use credit::{Credit, Passed};
pub use demand::{Demand, Ended};
pub use reserve::{Finished, Reserve};
pub use rule::{Budget, Question};
