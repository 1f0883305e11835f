//! The laws: consequences of the definitions, and of the promises of each part. The contract of each function is a
//! law, and its body is empty, or calls the laws that it stands on.
#![tactic(auto)]

pub mod accounts;
pub mod histories;
pub mod journals;
pub mod leaves;
pub mod levels;
pub mod names;
pub mod pools;
pub mod programs;
pub mod reports;
pub mod rounding;
pub mod services;
pub mod simulations;
pub mod slices;
pub mod traces;
