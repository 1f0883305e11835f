//! One order of heads for all workers, and the laws that it rests on: eligibility by finish and length alone.
#![tactic(auto)]

pub mod block;
mod blocks;
pub mod chooser;
pub mod examples;
pub mod extent;
pub mod groups;
pub mod head;
pub mod laws;
pub mod lengths;
pub mod order;
pub mod outlook;
pub mod search;
