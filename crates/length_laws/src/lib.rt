//! How long a request can turn out to be where costs and weights keep to limits, and so how far one tenant can get
//! ahead of another that waits.
#![tactic(auto)]

pub mod examples;
pub mod laws;
