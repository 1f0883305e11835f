//! The estimate of a request's cost before it is done, by the costs of the requests completed so far.
#![tactic(auto)]

pub mod any;
pub mod declared;
pub mod estimate;
pub mod pairs;
pub mod pessimistic;
pub mod recent;
