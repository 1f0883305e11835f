//! The values of the definitions on worked histories, small enough to find each number by hand.
#![tactic(auto)]

pub mod examples;
pub mod gaps;
pub mod paced;
pub mod served;
pub mod withdrawn;
