//! The ledger: the part of a journal that is kept without its entries.
ghost use Rattle.std.specs.Prelude.{◌≡◌, ◌≤◌, ◌∷◌, [], length};
ghost use Rattle.fq_model.specs.Limits.{InLimits};
ghost use Rattle.fq_model.specs.History.{is_closed, running, submits};
ghost use Rattle.fq_model.specs.Time.{last_moment, effective_moment};
ghost use Rattle.fq_model.specs.Rules.{IsLegal};
ghost use Rattle.sched_journal.specs.Journal.{history, with_entry, IsRoomFor};

use crate::tally::Tally;
use fq_model::config::Checked;
use fq_model::event::Entry;
use fq_model::limits::GREATEST_MOMENT;
use ghost_list::GhostList;
use std::marker::Model;

/// The configuration that one history is kept under, the number of its entries, the last of them, and its tally.
/// Contracts see the configuration and all entries in order of time; at run time no other entry is kept.
#[derive(Drop)]
pub struct Ledger {
    config: Checked,
    count: u32,
    last: Option<Entry>,
    tally: Tally,
    past: GhostList<Entry>,
}

impl Model for Ledger {
    ghost use Rattle.sched_journal.specs.Journal.{JournalView, KeepsLedger};

    ghost Value = { JournalView };

    ghost view = { λ l. record { config = l.config; past = l.past.items } };

    ghost invariant = { λ l. KeepsLedger l.config l.past.items l.count l.last l.tally };
}

impl Ledger {
    /// The ledger of a history without entries. It takes no memory.
    pub fn open(config: Checked) -> Ledger
        ensures { result ≡ record { config = config; past = [] } }
    {
        // its clause says that the configuration is in its limits
        config.entries();
        Ledger {
            config,
            count: 0,
            last: None,
            tally: Tally::new(),
            past: GhostList::new(),
        }
    }

    /// The configuration.
    pub fn config(&self) -> &Checked
        ensures config { result.now ≡ self.now.config }
        ensures limits { InLimits self.now.config }
    {
        &self.config
    }

    /// How many entries there are.
    pub fn len(&self) -> u32
        ensures value { result ≡ length self.now.past }
        ensures within { result ≤ self.now.config.entries }
        ensures legal { IsLegal self.now.config (history self.now) }
    {
        self.count
    }

    /// Whether nothing more is submitted.
    pub fn is_closed(&self) -> bool
        ensures { result ≡ is_closed (history self.now) }
    {
        self.tally.closed
    }

    /// How many requests were submitted.
    pub fn submits(&self) -> u32
        ensures { result ≡ submits (history self.now) }
    {
        self.tally.submits
    }

    /// How many requests run.
    pub fn running(&self) -> u32
        ensures { result ≡ running (history self.now) }
    {
        self.tally.running
    }

    /// The moment of the last entry, in microseconds, or 0.
    #[tactic(auto, using(crate::proofs::LedgerLemmas::newest_some, crate::proofs::LedgerLemmas::newest_none))]
    pub fn last_moment(&self) -> u64
        ensures value { result ≡ last_moment (history self.now) }
        ensures in_range { result ≤ GREATEST_MOMENT }
    {
        match self.last {
            Some(entry) => entry.moment,
            None => 0,
        }
    }

    /// The moment at which a call that names this one takes effect, in microseconds.
    pub fn effective(&self, moment: u64) -> u64
        ensures value { result ≡ effective_moment (history self.now) moment }
        ensures later { last_moment (history self.now) ≤ result }
        ensures in_range { result ≤ GREATEST_MOMENT }
    {
        moment.max(self.last_moment()).min(GREATEST_MOMENT)
    }

    /// Whether there is room for `more` entries beside those that the open requests need, of which `backlog` wait.
    pub fn has_room(&self, backlog: u32, more: u64) -> bool
        requires { more ≤ 4 }
        ensures { IsRoomFor self.now backlog more result }
    {
        let needed = self.count as u64 + 2 * backlog as u64 + self.tally.running as u64 + more;
        needed <= self.config.entries() as u64
    }

    /// One entry more.
    pub fn enter(&mut self, entry: Entry)
        requires { IsLegal self.old.config (entry ∷ history self.old) }
        ensures journal { self.new ≡ with_entry self.old entry }
        ensures within { length self.new.past ≤ self.new.config.entries }
    {
        self.tally.count(entry.act);
        self.count += 1;
        self.last = Some(entry);
        self.past = self.past.and(&entry);
    }

    /// The configuration alone, under which all entries were kept.
    pub fn into_config(self) -> Checked
        ensures config { result ≡ self.config }
        ensures legal { IsLegal self.config (history self) }
    {
        self.config
    }
}
