//! The numbers that a scheduler reads of its journal: counts of its entries, and the room that they leave; stores of
//! entries; and a history by itself, with all its entries.
#![tactic(auto)]

mod all_entries;
mod history;
mod last_entries;
mod ledger;
mod store;
mod tally;

pub use all_entries::AllEntries;
pub use history::History;
pub use last_entries::LastEntries;
pub use ledger::Ledger;
pub use store::Store;
