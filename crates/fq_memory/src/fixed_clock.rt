//! A clock that stands still.
ghost use Rattle.std.specs.Prelude.{◌≡◌, ℕ};

use fq_io::Clock;
use std::marker::Model;

/// A clock that stands still at one moment.
#[derive(Drop)]
pub struct FixedClock {
    moment: u64,
}

impl Model for FixedClock {
    ghost Value = { ℕ };

    ghost view = { λ clock. clock.moment };
}

impl FixedClock {
    /// Stands at this moment, in microseconds.
    pub fn new(moment: u64) -> FixedClock
        ensures { result ≡ moment }
    {
        FixedClock { moment }
    }
}

impl Clock for FixedClock {
    ghost tells = { λ clock answer. answer ≡ clock };

    fn now(&self) -> u64 {
        self.moment
    }
}
