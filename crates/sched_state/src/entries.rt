//! The entries that a scheduler keeps.
ghost use Rattle.std.specs.Prelude.{◌≡◌, ◌-◌, IfOk, length};
ghost use Rattle.fq_model.specs.History.{history_of};
ghost use Rattle.fq_model.specs.Rules.{IsLegal};
ghost use Rattle.sched_journal.specs.Stores.{kept_entry};
ghost use Rattle.sched_state.specs.Lists.{HoldsWaiting};
ghost use Rattle.sched_state.specs.Scheduler.{opened, opened_keeping};

use crate::scheduler::Scheduler;
use fq_model::config::Checked;
use fq_model::event::Entry;
use fq_model::job::Job;
use sched_journal::{AllEntries, History, LastEntries};
use std::alloc::{AllocError, Global};
use tag_rules::chooser::Chooser;

impl<J: Job + Drop, X: Chooser> Scheduler<J, X, AllEntries> {
    /// A scheduler that keeps all entries. Takes all the memory that it will use.
    pub fn open(alloc: Global, config: Checked) -> Result<Scheduler<J, X, AllEntries>, AllocError>
        ensures { IfOk result (λ s. s ≡ opened config) }
    {
        let store = AllEntries::open(alloc, config.entries())?;
        Scheduler::over(alloc, config, store)
    }

    /// The entries, in order of time. Each request that waits has its job here, and no other has.
    pub fn past(&self) -> &[Entry]
        ensures entries { result.now ≡ self.now.past }
        ensures legal { IsLegal self.now.config (history_of self.now.past) }
        ensures held { HoldsWaiting J.label_of (history_of self.now.past) self.now.jobs }
    {
        // its clauses speak of all entries
        self.len();
        self.store.entries()
    }
}

impl<J: Job + Drop, X: Chooser + Drop> Scheduler<J, X, AllEntries> {
    /// Its history, to which nothing is added any more. The jobs of the requests that still wait are dropped.
    pub fn into_history(self) -> History
        ensures past { result.past ≡ self.past }
        ensures config { result.config ≡ self.config }
    {
        let Scheduler {
            journal,
            tracker,
            store,
        } = self;
        drop(tracker);
        History::of(journal.into_config(), store.into_entries())
    }
}

impl<J: Job + Drop, X: Chooser> Scheduler<J, X, LastEntries> {
    /// A scheduler that keeps the last `keep` entries: none, one, or any number. Takes all the memory that it will use.
    pub fn open_keeping(
        alloc: Global,
        config: Checked,
        keep: u32,
    ) -> Result<Scheduler<J, X, LastEntries>, AllocError>
        ensures { IfOk result (λ s. s ≡ opened_keeping keep config) }
    {
        let store = LastEntries::open(alloc, keep)?;
        Scheduler::over(alloc, config, store)
    }

    /// The index in the history of the oldest entry that is kept, and the number of entries where none is kept.
    pub fn first_kept(&self) -> u32
        ensures { result ≡ length self.now.past - self.now.keep }
    {
        self.len().saturating_sub(self.store.keep())
    }

    /// The entry with this index in the whole history, the first having 0, if it is kept.
    pub fn entry(&self, index: u64) -> Option<Entry>
        ensures entry { result ≡ kept_entry self.now.keep self.now.past index }
        ensures legal { IsLegal self.now.config (history_of self.now.past) }
    {
        self.store.entry(self.len(), index)
    }
}
