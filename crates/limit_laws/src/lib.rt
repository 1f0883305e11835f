//! What the limits of a configuration change: the range of the weights that are given later, and nothing else. So a
//! history that was made under some limits can be read under others.
#![tactic(auto)]

pub mod examples;
pub mod laws;
