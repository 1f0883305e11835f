//! A history by itself.
ghost use Rattle.std.specs.Prelude.{◌≡◌};
ghost use Rattle.fq_model.specs.History.{history_of};
ghost use Rattle.fq_model.specs.Rules.{IsLegal};

use fq_model::config::Checked;
use fq_model::event::Entry;
use std::marker::Model;

/// A history to which nothing is added any more: the configuration that it was kept under, and its entries in order of
/// time. Contracts see both.
#[derive(Drop)]
pub struct History {
    config: Checked,
    past: Vec<Entry>,
}

impl Model for History {
    ghost use Rattle.fq_model.specs.History.{history_of};
    ghost use Rattle.fq_model.specs.Rules.{IsLegal};
    ghost use Rattle.sched_journal.specs.Journal.{JournalView};

    ghost Value = { JournalView };

    ghost view = { λ h. record { config = h.config; past = h.past.items } };

    ghost invariant = { λ h. IsLegal h.config (history_of h.past.items) };
}

impl History {
    /// The history of these entries.
    pub fn of(config: Checked, past: Vec<Entry>) -> History
        requires { IsLegal config (history_of past.items) }
        ensures { result ≡ record { config = config; past = past.items } }
    {
        History { config, past }
    }

    /// The entries, in order of time.
    pub fn past(&self) -> &[Entry]
        ensures entries { result.now ≡ self.now.past }
        ensures legal { IsLegal self.now.config (history_of self.now.past) }
    {
        self.past.as_slice()
    }

    /// The configuration, and the entries in order of time: for a caller that frees one before the other.
    pub fn into_parts(self) -> (Checked, Vec<Entry>)
        ensures config { result.0 ≡ self.config }
        ensures entries { result.1.items ≡ self.past }
        ensures legal { IsLegal self.config (history_of self.past) }
    {
        (self.config, self.past)
    }

    /// The configuration.
    pub fn config(&self) -> &Checked
        ensures { result.now ≡ self.now.config }
    {
        &self.config
    }
}
