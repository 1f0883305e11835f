//! What each worker of a service runs, and which are free.
#![tactic(auto)]

mod bits;
pub mod table;
#[cfg(test)]
mod tests;

pub use table::WorkerTable;
