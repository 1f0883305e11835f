//! Virtual time, and how much of it passed while each tenant was not active.
#![tactic(auto)]

pub mod clock;
pub mod idles;
pub mod times;
pub mod weights;
