//! The desk: one scheduler behind one lock, whose submitters and workers are threads that each hold a token.
#![tactic(auto)]

mod answering;
mod asking;
mod bell;
mod calls;
pub mod crossing;
mod desk;
mod ending;
mod floor;
mod foreseeing;
mod opening;
mod refusals;
mod shown;
mod tokens;

pub use asking::{Ask, AskForeseen, DeskReply};
pub use bell::Heard;
pub use desk::{Desk, DeskOf, MOST_SUBMITTERS};
pub use floor::{Crew, Floor};
pub use refusals::{DoneRefusal, LiveRefusal, OpenFault};
pub use tokens::{Running, Submitter, Took, Worker};
