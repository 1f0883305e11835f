//! The clock of the process.

use crate::clock::Clock;
use std::time;
use std::time::Instant;

/// Microseconds since the start, by the monotonic clock of the system. Where the system does not tell the
/// time, it stands at 0.
#[derive(Drop)]
pub struct ProcessClock<'a, T: time::Clock> {
    rt: &'a T,
    start: Option<Instant>,
}

impl<'a, T: time::Clock> ProcessClock<'a, T> {
    /// Starts at 0.
    pub fn start(rt: &'a T) -> ProcessClock<'a, T> {
        ProcessClock {
            rt,
            start: Instant::now(rt).ok(),
        }
    }
}

impl<'a, T: time::Clock> Clock for ProcessClock<'a, T> {
    ghost tells = { λ _ _. Unit {0} };

    fn now(&self) -> u64 {
        let Some(start) = self.start else {
            return 0;
        };
        match start.elapsed(self.rt) {
            Ok(passed) => u64::try_from(passed.as_micros()).unwrap_or(u64::MAX),
            Err(_) => 0,
        }
    }
}
