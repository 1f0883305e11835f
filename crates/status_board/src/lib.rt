//! A scheduler's status, shown by one writer to readers that never wait.
//!
//! A sequence lock of one writer (Boehm, Can Seqlocks Get Along with Programming Language Memory Models?, 2012), by
//! sequentially consistent steps. A reader tries once. Where the writer is at work it keeps to its last answer, so
//! neither side ever waits.
#![tactic(auto)]

mod answers;
pub mod board;
pub mod crossing;
mod plays;
pub mod reader;
mod table;
mod words;
pub mod writer;

pub use board::Board;
pub use reader::Reader;
pub use writer::Writer;
