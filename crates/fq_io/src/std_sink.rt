//! The adapter over std's writers.
ghost use Rattle.std.specs.Prelude.{◌≡◌, ℕ, Option, ◌-◌, ◌^◌, ◌≤◌, None};
ghost use Rattle.std.specs.Io.KnownBytes.{WriteAppends};
ghost use Rattle.fq_io.specs.Faults.{HasCause, faults_after};
ghost use Rattle.fq_io.specs.Sinks.{TakesSome};

use crate::fault::Failed;
use crate::sink::Sink;
use std::io::Write;
use std::marker::Model;

/// A sink over a writer of std. It flushes after each write, counts each error and tells no content.
#[derive(Drop)]
pub struct StdSink<W> {
    writer: W,
    faults: u64,
}

// Contracts see the count of its faults.
impl<W> Model for StdSink<W> {
    ghost Value = { ℕ };

    ghost view = { λ s. s.faults };

    ghost invariant = { λ s. s.faults ≤ 2 ^ 64 - 1 };
}

impl<W: Write> StdSink<W> {
    /// Has no fault yet.
    pub fn new(writer: W) -> StdSink<W>
        ensures { result ≡ 0 }
    {
        StdSink { writer, faults: 0 }
    }
}

// Writes and flushes once. A write that takes nothing of something fails.
fn push<W: Write>(writer: &mut W, piece: &[u8]) -> Result<usize, Failed>
    ensures { TakesSome result piece.now }
{
    let count = writer.write(piece)?;
    if count == 0 && !piece.is_empty() {
        return Err(Failed);
    }
    writer.flush()?;
    Ok(count)
}

impl<W: Write> Sink for StdSink<W> {
    ghost written = { λ _. None };

    ghost faults = { λ s. s };

    ghost room = { λ _. None };

    /// Any error of the writer is a fault, an interrupted call too, and so is a flush that fails.
    fn write(&mut self, piece: &[u8]) -> Result<usize, Failed>
        ensures some { TakesSome result piece.now }
        ensures bytes { WriteAppends None None result piece.now }
        ensures cause { HasCause self.old self.new result }
        ensures fixed { ◌≡◌ {A = Option ℕ} None None }
        ensures count { self.new ≡ faults_after result self.old }
    {
        let answer = push(&mut self.writer, piece);
        if answer.is_err() {
            self.faults = self.faults.saturating_add(1);
        }
        answer
    }
}
