//! The gap of two tenants: the greatest difference of their starts while both wait, and its bound.
#![tactic(auto)]

pub mod asked;
pub mod gaps;
pub mod lengths;
pub mod reading;
pub mod strays;
