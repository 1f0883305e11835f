//! A store that keeps the last entries.
ghost use Rattle.std.specs.Prelude.{◌≡◌, [], IfOk, length};
ghost use Rattle.fq_model.specs.declared.limits.TheConstants.{MOST_LONG_ENTRIES};
ghost use Rattle.sched_journal.specs.Stores.{kept_entry};

use crate::store::Store;
use circular_buffer::HeapCircularBuffer;
use fq_model::event::Entry;
use ghost_list::GhostList;
use std::alloc::{AllocError, Global};
use std::marker::Model;

/// The last of the entries that came. Contracts see all that came.
#[derive(Drop)]
pub struct LastEntries {
    keep: u32,
    ring: HeapCircularBuffer<Entry>,
    past: GhostList<Entry>,
}

impl Model for LastEntries {
    ghost use Rattle.fq_model.specs.declared.limits.TheConstants.{MOST_LONG_ENTRIES};
    ghost use Rattle.sched_journal.specs.Stores.{StoreView, HoldsLast};

    ghost Value = { StoreView };

    ghost view = { λ s. record { past = s.past.items; keep = s.keep; room = MOST_LONG_ENTRIES } };

    ghost invariant = { λ s. HoldsLast s.keep s.past.items s.ring };
}

impl LastEntries {
    /// Takes the memory for the last `keep` entries: none, one, or any number.
    pub fn open(alloc: Global, keep: u32) -> Result<LastEntries, AllocError>
        ensures { IfOk result (λ s. s ≡ record { past = []; keep = keep; room = MOST_LONG_ENTRIES }) }
    {
        let ring = HeapCircularBuffer::with_capacity(alloc, keep as usize)?;
        let past = GhostList::new();
        Ok(LastEntries { keep, ring, past })
    }

    /// How many of the last entries are kept.
    pub fn keep(&self) -> u32
        ensures { result ≡ self.now.keep }
    {
        self.keep
    }

    /// The entry with this index, the first of all having 0, if it is kept. `count` is the number of all that came.
    pub fn entry(&self, count: u32, index: u64) -> Option<Entry>
        requires { count ≡ length self.now.past }
        ensures { result ≡ kept_entry self.now.keep self.now.past index }
    {
        let first = count as u64 - self.ring.len() as u64;
        if index < first {
            return None;
        }
        self.ring.get((index - first) as usize).copied()
    }
}

impl Store for LastEntries {
    ghost seen = { λ s. s };

    fn push(&mut self, entry: Entry) {
        self.past = self.past.and(&entry);
        self.ring.push_back(entry);
    }
}
