//! The adapter over std's readers.
ghost use Rattle.std.specs.Prelude.{◌≡◌, ℕ, ◌-◌, ◌^◌, ◌≤◌, None};
ghost use Rattle.std.specs.Io.{ReadsAtMost};
ghost use Rattle.fq_io.specs.Faults.{HasCause, faults_after};
ghost use Rattle.fq_io.specs.Sources.{Reads};

use crate::fault::Failed;
use crate::source::Source;
use std::io::Read;
use std::marker::Model;

/// A source over a reader of std. It counts each error and tells no content.
#[derive(Drop)]
pub struct StdSource<R> {
    reader: R,
    faults: u64,
}

// Contracts see the count of its faults.
impl<R> Model for StdSource<R> {
    ghost Value = { ℕ };

    ghost view = { λ s. s.faults };

    ghost invariant = { λ s. s.faults ≤ 2 ^ 64 - 1 };
}

impl<R: Read> StdSource<R> {
    /// Has no fault yet.
    pub fn new(reader: R) -> StdSource<R>
        ensures { result ≡ 0 }
    {
        StdSource { reader, faults: 0 }
    }
}

impl<R: Read> Source for StdSource<R> {
    ghost left = { λ _. None };

    ghost faults = { λ s. s };

    /// Any error of the reader is a fault, an interrupted call too.
    fn read(&mut self, buf: &mut [u8]) -> Result<usize, Failed>
        ensures bound { ReadsAtMost result buf.new }
        ensures bytes { Reads None None result buf.old buf.new }
        ensures cause { HasCause self.old self.new result }
        ensures count { self.new ≡ faults_after result self.old }
    {
        let answer = self.reader.read(buf);
        if answer.is_err() {
            self.faults = self.faults.saturating_add(1);
        }
        Ok(answer?)
    }
}
