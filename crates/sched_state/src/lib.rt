//! One history of one scheduler, with the jobs of the requests that wait.
#![tactic(auto)]

pub mod answering;
mod entries;
mod refusals;
mod replies;
mod scheduler;
mod tracker;

pub use answering::answer;
pub use replies::{AlreadyClosed, Refused, Taken};
pub use scheduler::{Recent, Scheduler};
