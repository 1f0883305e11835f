//! A sink into memory that was taken before, which fails only where it is full.
ghost use Rattle.std.specs.Prelude.{◌≡◌, ◌≤◌, [], Some, IfOk, vec_capacity};
ghost use Rattle.std.specs.Io.KnownBytes.{WriteAppends};
ghost use Rattle.fq_io.specs.Faults.{HasCause};
ghost use Rattle.fq_io.specs.Sinks.{TakesSome};
ghost use Rattle.fq_memory.specs.Clean.{CleanMemory, Fills, IsClean};

use fq_io::{Failed, Sink};
use std::alloc::{AllocError, Global};
use std::marker::Model;

/// Room for bytes in memory, for tools and tests that want a whole text: a status that comes only where writing failed
/// can't come over it, if it has more room than the text has bytes. `MemSink` fails at chosen calls.
#[derive(Drop)]
pub struct CleanSink {
    bytes: Vec<u8>,
    room: usize,
    faults: u64,
}

impl Model for CleanSink {
    ghost Value = { CleanMemory };

    ghost view = { λ s. record { written = s.bytes.items; room = s.room; faults = s.faults } };

    ghost invariant = { λ s. IsClean s.room s.bytes.items s.faults × (s.room ≤ vec_capacity s.bytes) };
}

impl CleanSink {
    /// Takes `room` bytes of memory at once, and later none.
    pub fn with_room(alloc: Global, room: usize) -> Result<CleanSink, AllocError>
        ensures { IfOk result (λ sink. sink ≡ record { written = []; room = room; faults = 0 }) }
    {
        Ok(CleanSink {
            bytes: Vec::with_capacity(alloc, room)?,
            room,
            faults: 0,
        })
    }

    /// The bytes that were taken so far.
    pub fn bytes(&self) -> &[u8]
        ensures bytes { result.now ≡ self.now.written }
        ensures clean { IsClean self.now.room self.now.written self.now.faults }
    {
        self.bytes.as_slice()
    }
}

impl Sink for CleanSink {
    ghost written = { λ s. Some s.written };

    ghost faults = { λ s. s.faults };

    ghost room = { λ s. Some s.room };

    /// Takes no memory.
    fn write(&mut self, piece: &[u8]) -> Result<usize, Failed>
        ensures some { TakesSome result piece.now }
        ensures bytes { WriteAppends (Some self.old.written) (Some self.new.written) result piece.now }
        ensures cause { HasCause self.old.faults self.new.faults result }
        ensures fixed { Some self.new.room ≡ Some self.old.room }
        ensures exact { Fills self.old self.new piece.now result }
    {
        let free = self.room - self.bytes.len();
        if free == 0 && !piece.is_empty() {
            self.faults = self.faults.saturating_add(1);
            return Err(Failed);
        }
        let count = free.min(piece.len());
        self.bytes.extend_from_slice(&piece[..count]).unwrap();
        Ok(count)
    }
}
