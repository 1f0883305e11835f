//! A source over memory that fails at given calls.
ghost use Rattle.std.specs.Prelude.{◌≡◌, ◌≤◌, ◌↔◌, length, drop, Some, IsErr, IfOk, IsTrue};
ghost use Rattle.std.specs.Io.{ReadsAtMost};
ghost use Rattle.fq_io.specs.Faults.{HasCause};
ghost use Rattle.fq_io.specs.Sources.{Reads};
ghost use Rattle.fq_memory.specs.Memory.{MemorySource, fails_at, read_count, after_read, buffer_after_read};

use fq_io::{Failed, Source};
use std::marker::Model;

/// Bytes in memory that come in pieces, and the numbers of the calls that fail.
#[derive(Drop)]
pub struct MemSource {
    bytes: Vec<u8>,
    at: usize,
    chunk: usize,
    fails: Vec<u64>,
    calls: u64,
    faults: u64,
}

impl Model for MemSource {
    ghost Value = { MemorySource };

    ghost view = { λ s. record {
      left = drop s.at s.bytes.items;
      chunk = s.chunk;
      fails = s.fails.items;
      calls = s.calls;
      faults = s.faults;
    } };

    ghost invariant = { λ s. (s.at ≤ length s.bytes.items) × (1 ≤ s.chunk) };
}

impl MemSource {
    /// Gives `bytes`, at most `chunk` of them in a call. The calls whose numbers, from 0, stand in
    /// `fails` fail.
    pub fn new(bytes: Vec<u8>, chunk: usize, fails: Vec<u64>) -> MemSource
        requires { 1 ≤ chunk }
        ensures { result ≡ record {
          left = bytes.items;
          chunk = chunk;
          fails = fails.items;
          calls = 0;
          faults = 0;
        } }
    {
        MemSource {
            bytes,
            at: 0,
            chunk,
            fails,
            calls: 0,
            faults: 0,
        }
    }
}

impl Source for MemSource {
    ghost left = { λ s. Some s.left };

    ghost faults = { λ s. s.faults };

    /// Takes no memory.
    fn read(&mut self, buf: &mut [u8]) -> Result<usize, Failed>
        ensures bound { ReadsAtMost result buf.new }
        ensures bytes { Reads (Some self.old.left) (Some self.new.left) result buf.old buf.new }
        ensures cause { HasCause self.old.faults self.new.faults result }

        // The exact effect of a call.
        ensures failed { IsErr result ↔ IsTrue (fails_at self.old.fails self.old.calls) }
        ensures count { IfOk result (λ n. n ≡ read_count self.old (length buf.old)) }
        ensures state { self.new ≡ after_read self.old (length buf.old) }
        ensures buffer { buf.new ≡ buffer_after_read self.old buf.old }
    {
        let call = self.calls;
        self.calls = call.saturating_add(1);
        if self.fails.contains(&call) {
            self.faults = self.faults.saturating_add(1);
            return Err(Failed);
        }
        let rest = &self.bytes[self.at..];
        let count = rest.len().min(self.chunk).min(buf.len());
        buf[..count].copy_from_slice(&rest[..count]);
        self.at += count;
        Ok(count)
    }
}
