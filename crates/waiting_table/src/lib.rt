//! A table of the requests that wait in a service, by ticket.
//!
//! Tickets only rise, so a sorted array that grows at its end serves, with a binary search in it (Knuth, The Art of
//! Computer Programming 3, 6.2.1, 1973); what is removed stays as a hole until half of the entries are holes, and all
//! of them are squeezed out at once. The least deadline comes from a tree of winners by place.
#![tactic(auto)]

pub mod laws;
pub mod order;
pub mod row;
pub mod table;
#[cfg(test)]
mod tests;

pub use order::TicketOrder;
pub use row::{Coming, Due, Waiting};
pub use table::WaitingTable;
