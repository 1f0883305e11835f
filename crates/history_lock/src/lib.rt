//! One history for all threads: a ticket lock round a machine, whose callers each know the history that they have seen
//! and their own entries.
//!
//! Turns are served in the order in which they were drawn (a ticket lock: Mellor-Crummey and Scott, Algorithms for
//! Scalable Synchronization on Shared-Memory Multiprocessors, 1991). A caller draws one once it finds nobody in line,
//! or has been overtaken often enough.
#![tactic(auto)]

pub mod crossing;
mod echo;
pub mod laws;
pub mod lock;
pub mod machine;
pub mod pass;
mod plays;
mod steps;
mod table;

pub use lock::{HistoryLock, Unsettled};
pub use machine::{Inspect, Machine};
pub use pass::Pass;
