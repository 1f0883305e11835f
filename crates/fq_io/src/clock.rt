//! Clocks.
ghost use Rattle.std.specs.Prelude.{ℕ};

/// A clock that answers the moment. Its answers may fall.
pub trait Clock {
    /// Whether the clock may answer this number.
    ghost tells: { Self → ℕ → Type 0 };

    /// The moment, in microseconds.
    fn now(&self) -> u64
        ensures { tells self.now result };
}
