//! A store that keeps all entries.
ghost use Rattle.std.specs.Prelude.{◌≡◌, [], IfOk};
ghost use Rattle.fq_model.specs.declared.limits.TheConstants.{MOST_LONG_ENTRIES};

use crate::store::Store;
use fq_model::event::Entry;
use std::alloc::{AllocError, Global};
use std::marker::Model;

/// All entries that came, as many as it was opened for at most.
#[derive(Drop)]
pub struct AllEntries {
    entries: Vec<Entry>,
}

impl Model for AllEntries {
    ghost use Rattle.std.specs.Prelude.{vec_capacity};
    ghost use Rattle.fq_model.specs.declared.limits.TheConstants.{MOST_LONG_ENTRIES};
    ghost use Rattle.sched_journal.specs.Stores.{StoreView};

    ghost Value = { StoreView };

    ghost view = { λ s. record {
      past = s.entries.items;
      keep = MOST_LONG_ENTRIES;
      room = vec_capacity s.entries;
    } };
}

impl AllEntries {
    /// Takes the memory for this number of entries.
    pub fn open(alloc: Global, most: u32) -> Result<AllEntries, AllocError>
        ensures { IfOk result (λ s. s ≡ record { past = []; keep = MOST_LONG_ENTRIES; room = most }) }
    {
        let entries = Vec::with_capacity(alloc, most as usize)?;
        Ok(AllEntries { entries })
    }

    /// The entries, in order of time.
    pub fn entries(&self) -> &[Entry]
        ensures { result.now ≡ self.now.past }
    {
        self.entries.as_slice()
    }

    /// The entries, to which none is added any more.
    pub fn into_entries(self) -> Vec<Entry>
        ensures { result.items ≡ self.past }
    {
        self.entries
    }
}

impl Store for AllEntries {
    ghost seen = { λ s. s };

    fn push(&mut self, entry: Entry) {
        self.entries.push_reserved(entry);
    }
}
