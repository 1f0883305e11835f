//! The job of a request.
ghost use Rattle.std.specs.Prelude.{◌≡◌, ℕ};

/// The value that a submitter hands in with a request. The scheduler keeps it unread, and hands it to the worker that
/// takes the request; the journal has its label alone.
pub trait Job {
    /// The label as contracts see it.
    ghost label_of: { Self → ℕ };

    /// A number of the submitter's own, which nothing reads but the submitter. Any number will do.
    fn label(&self) -> u64
        ensures { result ≡ label_of self.now };
}

impl Job for u64 {
    ghost label_of = { λ n. n };

    fn label(&self) -> u64 {
        *self
    }
}
