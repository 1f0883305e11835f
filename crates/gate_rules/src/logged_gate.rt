//! A gate that cannot be asked but into a log.
ghost use Rattle.std.specs.Prelude.{◌≡◌, [], ◌∷◌};
ghost use Rattle.gate_rules.specs.Asking.{asked_for};
ghost use Rattle.gate_rules.specs.Counting.{IsAtMost};
ghost use Rattle.gate_rules.specs.Slices.{counters_of, FollowsIfTold};

use crate::counters::Counters;
use crate::gate::{Gate, Slice};
use fq_model::job::Job;
use std::marker::Model;
use std::snapshot::Snapshot;

/// A slice that a gate was asked for, and its answer.
#[derive(Clone, Copy)]
pub struct Asked {
    /// The job's label.
    pub label: u64,
    /// Counted from 0.
    pub number: u32,
    /// The counters that the gate was handed.
    pub last: Counters,
    pub answer: Slice,
}

// The newest slice, and those before it. For contracts alone: it holds nothing.
#[derive(Drop)]
enum Asks {
    Nothing,
    Next(Snapshot<Asked>, Snapshot<Asks>),
}

/// The slices that one caller has asked a gate of type G for, and the answers. It is for contracts, which see a list,
/// the newest first; when it runs it holds nothing. It comes from the gate itself, and grows by its answers alone.
#[derive(Drop)]
pub struct SliceLog<G> {
    asks: Asks,
    gate: Snapshot<G>,
}

impl<G> Model for SliceLog<G> {
    ghost use Rattle.std.specs.Prelude.{List};
    ghost use Rattle.gate_rules.specs.declared.logged_gate.Asked.{Asked};
    ghost use Rattle.gate_rules.specs.Logs.{asks_in};

    ghost Value = { List Asked };

    ghost view = { λ log. asks_in log.asks };
}

/// A gate that cannot be asked but into a log. Who holds it by `&` can neither ask it otherwise nor make a log, so the
/// logs that the holder was handed tell all that it asks.
#[derive(Drop)]
pub struct LoggedGate<G> {
    gate: G,
}

// Contracts see the gate.
impl<G> Model for LoggedGate<G> {
    ghost Value = { G };

    ghost view = { λ logged. logged.gate };
}

impl<G> LoggedGate<G> {
    /// Keeps the gate.
    pub fn new(gate: G) -> LoggedGate<G>
        ensures { result ≡ gate }
    {
        LoggedGate { gate }
    }

    /// A log in which nothing stands.
    pub fn log(&mut self) -> SliceLog<G>
        ensures new { result ≡ [] }
        ensures same { self.new ≡ self.old }
    {
        SliceLog {
            asks: Asks::Nothing,
            gate: Snapshot::of(&self.gate),
        }
    }

    /// Runs slice `k` of the job, counted from 0, as the gate does, and notes it.
    pub fn slice<J: Job>(&self, log: &mut SliceLog<G>, job: &J, k: u32, last: Counters) -> Slice
    where
        G: Gate<J>,
        ensures rises { IsAtMost last (counters_of result) }
        ensures follows { FollowsIfTold (G.course self.now (J.label_of job.now)) k last result }
        ensures noted { log.new ≡ asked_for (J.label_of job.now) k last result ∷ log.old }
    {
        let answer = self.gate.slice(job, k, last);
        let asked = Asked {
            label: job.label(),
            number: k,
            last,
            answer,
        };
        log.asks = Asks::Next(Snapshot::of(&asked), Snapshot::of(&log.asks));
        answer
    }

    /// The gate.
    pub fn into_gate(self) -> G
        ensures { result ≡ self }
    {
        self.gate
    }
}
