//! The commands of the program, in groups by the part of it that serves them.

use crate::compare::CompareOptions;
use crate::name::Name;
use crate::trace::RunOptions;

/// The output of `script`.
#[derive(Clone, Copy, PartialEq, Eq)]
pub enum ScriptPrint {
    /// The replies.
    Replies,
    /// The journal of the scheduler after all calls.
    Journal,
    /// The replies, then the journal.
    Both,
}

/// The output of `run` and `live` from a history.
#[derive(Clone, Copy, PartialEq, Eq)]
pub enum HistoryPrint {
    /// Its journal.
    Journal,
    /// Its lag report.
    Report,
    /// Its journal, then its lag report.
    Both,
    /// The summary of its lag report.
    Summary,
}

/// The output of `gen`.
#[derive(Clone, Copy, PartialEq, Eq)]
pub enum GenPrint {
    /// The generated trace.
    Trace,
    /// The summary of the lag report of its simulated history.
    Summary,
}

/// A command that needs no threads. A slot is in microseconds, and 0 stands for the automatic slot.
#[derive(Clone, Copy, PartialEq, Eq)]
pub enum PlainCommand {
    /// Makes the calls of a script.
    Script {
        print: ScriptPrint,
    },
    /// Simulates a trace.
    Run {
        options: RunOptions,
        slot: u64,
        print: HistoryPrint,
    },
    /// Generates a trace.
    Gen {
        seed: u64,
        tenants: u32,
        requests: u32,
        print: GenPrint,
    },
    /// Judges a journal, and explains why a worker took a request, if one is asked about.
    Check {
        explain: Option<u32>,
    },
    /// Tells how far one tenant of a journal got ahead of another.
    Lead {
        /// Whose lead it is: the name of a tenant.
        of: Name,
        /// Over whom it is.
        over: Name,
    },
    /// Delays the requests of a trace as a bucket of tokens for each tenant would.
    Shape {
        /// How many tokens a tenant of weight 1 gains in 1000 microseconds: 1 to 1,000,000.
        rate: u64,
        /// How many tokens a bucket holds: 1 to 1,000,000,000.
        burst: u64,
    },
}

/// The options of `live`.
#[derive(Clone, Copy, PartialEq, Eq)]
pub struct LiveOptions {
    pub run: RunOptions,
    /// In microseconds: up to 1,000,000,000,000,000, and 0 for the automatic slot.
    pub slot: u64,
    pub print: HistoryPrint,
    /// How many times the scheduler's status is read while its threads work: 0 to 1000.
    pub watch: u32,
}

/// The command that a command line asks for, by the part of the program that serves it.
#[derive(Clone, Copy, PartialEq, Eq)]
pub enum Command {
    /// A command that needs no threads.
    Plain(PlainCommand),
    /// Serves a trace by a pool of threads.
    Live { options: LiveOptions },
    /// Simulates a trace under the published policies and all estimators, on threads that end by themselves.
    Compare { options: CompareOptions },
}
