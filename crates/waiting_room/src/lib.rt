//! A room of places where requests wait, and who is admitted to it.
//!
//! A finite buffer that several classes share, under a dynamic threshold (Choudhury and Hahne, Dynamic Queue Length
//! Thresholds for Shared-Memory Packet Switches, 1998): each tenant has places of its own, and of the shared ones it may
//! take one more while it has fewer of them than are free.
#![tactic(auto)]

pub mod laws;
pub mod refusal;
pub mod room;
#[cfg(test)]
mod tests;

pub use refusal::Refusal;
pub use room::Room;
