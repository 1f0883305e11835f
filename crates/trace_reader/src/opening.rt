//! The configuration of the scheduler of a trace.
ghost use Rattle.std.specs.Prelude.{ℕ, ◌≡◌, ◌+◌, ◌≤◌, ◌<◌, length, IfOk};
ghost use Rattle.fq_model.specs.declared.limits.TheConstants.{LEAST_ENTRIES, MOST_ENTRIES};
ghost use Rattle.program_model.specs.Courses.{submitters, trace_config};
ghost use Rattle.program_model.specs.TraceText.{IsLawfulTrace};
ghost use Rattle.fq_model.specs.Limits.{IsWithin};
ghost use Rattle.program_model.specs.RunLimits.{AreInRange};
ghost use Rattle.trace_reader.specs.Rows.{row_at};

use crate::trace::Trace;
use fq_model::config::{Checked, Config, Weights};
use fq_model::limits::{GREATEST_SUBMITTER, Limits};
use program_model::trace::{RunOptions, TraceRow};
use std::alloc::{AllocError, Global};

/// The configuration of a trace whose history may have this number of entries. All requests may wait at once.
pub fn config_of(
    alloc: Global,
    trace: &Trace,
    options: RunOptions,
    entries: u32,
) -> Result<Checked, AllocError>
    requires lawful { IsLawfulTrace trace.now }
    requires options { AreInRange options }
    requires entries { IsWithin LEAST_ENTRIES MOST_ENTRIES entries }
    ensures { IfOk result (λ c. c ≡ trace_config trace.now options entries) }
{
    let config = Config {
        limits: Limits::Text,
        workers: options.workers,
        weights: Weights::from_vec(trace.tenants().weights(alloc)?),
        kinds: trace.kinds().len(),
        entries,
        requests: trace.rows().len().max(1) as u32,
        policy: options.policy,
        estimate: options.estimate,
        initial: options.initial,
    };
    Ok(config.check().unwrap())
}

/// The number of submitters: one more than the greatest that a request names, or 1 where there are no requests. The
/// workers are numbered on from there.
pub fn submitters(rows: &[TraceRow]) -> u32
    requires { (r : ℕ) → r < length rows.now → (row_at rows.now r).submitter ≤ GREATEST_SUBMITTER }
    ensures count { result ≡ submitters rows.now }
    ensures few { result ≤ GREATEST_SUBMITTER + 1 }
{
    let mut most: u32 = 1;
    for row in rows {
        most = most.max(row.submitter + 1);
    }
    most
}
