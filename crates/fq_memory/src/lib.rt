//! Sources and sinks of bytes over memory, and a clock that stands still, for tests and tools; the program uses none
//! of them.
#![tactic(auto)]

mod clean_sink;
mod clean_source;
mod fixed_clock;
pub mod laws;
mod memory_sink;
mod memory_source;

pub use clean_sink::CleanSink;
pub use clean_source::CleanSource;
pub use fixed_clock::FixedClock;
pub use memory_sink::MemSink;
pub use memory_source::MemSource;
