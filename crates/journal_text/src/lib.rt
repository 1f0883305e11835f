//! Texts of a scheduler: scripts, up to their first fault; replies; and journals.
#![tactic(auto)]

mod at_once;
pub mod body;
pub mod calls;
pub mod document;
pub mod entries;
pub mod fault;
mod head;
mod lines;
pub mod messages;
mod named;
pub mod printing;
pub mod reading;
pub mod replies;
mod rows;
mod words;
