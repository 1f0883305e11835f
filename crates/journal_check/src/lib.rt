//! Journals judged, and the choices in them explained.
#![tactic(auto)]

pub mod checking;
pub mod explaining;
pub mod laws;
pub mod printing;

pub use journal_text::entries::{Journal, read_journal};
