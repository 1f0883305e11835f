//! A source over memory that never fails.
ghost use Rattle.std.specs.Prelude.{◌≡◌, ◌≤◌, length, drop, min, List, ℕ, Some, Ok};
ghost use Rattle.std.specs.Io.{ReadsAtMost};
ghost use Rattle.fq_io.specs.Faults.{HasCause};
ghost use Rattle.fq_io.specs.Sources.{Reads};

use fq_io::{Failed, Source};
use std::marker::Model;

/// Bytes in memory, for tools and tests that read a text which they already have: a status that comes only where
/// reading failed can't come over it. `MemSource` fails at chosen calls.
#[derive(Drop)]
pub struct CleanSource {
    bytes: Vec<u8>,
    at: usize,
}

// Contracts see the bytes still to come.
impl Model for CleanSource {
    ghost Value = { List ℕ };

    ghost view = { λ s. drop s.at s.bytes.items };

    ghost invariant = { λ s. s.at ≤ length s.bytes.items };
}

impl CleanSource {
    /// Gives `bytes`, as many in a call as the buffer holds.
    pub fn new(bytes: Vec<u8>) -> CleanSource
        ensures { result ≡ bytes.items }
    {
        CleanSource { bytes, at: 0 }
    }
}

impl Source for CleanSource {
    ghost left = { λ s. Some s };

    ghost faults = { λ _. 0 };

    /// Takes no memory.
    fn read(&mut self, buf: &mut [u8]) -> Result<usize, Failed>
        ensures bound { ReadsAtMost result buf.new }
        ensures bytes { Reads (Some self.old) (Some self.new) result buf.old buf.new }
        ensures cause { HasCause 0 0 result }
        ensures count { result ≡ Ok (min (length self.old) (length buf.old)) }
    {
        let rest = &self.bytes[self.at..];
        let count = rest.len().min(buf.len());
        buf[..count].copy_from_slice(&rest[..count]);
        self.at += count;
        Ok(count)
    }
}
