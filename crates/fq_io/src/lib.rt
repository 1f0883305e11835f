//! Sources and sinks of bytes, whose traits count the calls that fail, and clocks.
#![tactic(auto)]

mod clock;
mod fault;
mod process_clock;
mod reading;
mod sink;
mod source;
mod std_sink;
mod std_source;
mod writing;

pub use clock::Clock;
pub use fault::Failed;
pub use process_clock::ProcessClock;
pub use reading::{ReadAllFault, read_all};
pub use sink::Sink;
pub use source::Source;
pub use std_sink::StdSink;
pub use std_source::StdSource;
pub use writing::{WriteFault, write_all};
