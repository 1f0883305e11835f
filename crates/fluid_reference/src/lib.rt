//! The fluid reference: an ideal service in slots of one length, each of which the tenants share by weight.
#![tactic(auto)]

pub mod fault;
pub mod joining;
pub mod owned;
pub mod reference;
mod replaying;
pub mod setting;
pub mod sharing;
pub mod slots;
