//! The comparison of the published policies and all estimators.
ghost use Rattle.std.specs.Prelude.{◌≡◌, ◌≤◌, ◌+◌, ◌++◌, ◌∷◌, [], length, Err, IfOk, IfErr, IsOkAnd, OnOk};
ghost use Rattle.fq_model.specs.declared.limits.TheConstants.{MOST_ENTRIES};
ghost use Rattle.program_model.specs.CompareCommand.{AreAllRows};
ghost use Rattle.program_model.specs.RunLimits.{CanCompare};
ghost use Rattle.program_model.specs.Simulated.{needed_entries};
ghost use Rattle.program_model.specs.TraceText.{IsLawfulTrace};
ghost use Rattle.compare_all.specs.Reasons.{IsReason, HasManyEntries, many_entries};
ghost use Rattle.compare_all.specs.Rows.{AreFirstRows, ComesAt, IsFaultAt};

use crate::fault::CompareFault;
use crate::rows::{RowFault, rows_of};
use fq_model::config::Policy;
use fq_model::limits::MOST_ENTRIES;
use program_model::compare::{CompareOptions, CompareRow, POLICIES};
use std::alloc::Global;
use std::thread::Threads;
use trace_reader::trace::Trace;
use trace_runner::needed::needed;

/// How many pairs of a policy and an estimator are compared.
const PAIRS: usize = 12;

/// The rows of all pairs on a trace: twelve rows, by policy `wfq`, `wf2q`, `msf2q`, `2dfq`, and in
/// each by estimator `declared`, `recent`, `pessimistic`. The rows are the same for any number of threads. The policies
/// go one after another and the estimators of each side by side, so no more than three histories and reports stand in
/// memory at once. The first row without a history or a report decides; no row after those of its policy is begun.
pub fn compare<R: Threads + Sync>(
    rt: &R,
    alloc: Global,
    trace: &Trace,
    options: CompareOptions,
) -> Result<Vec<CompareRow>, CompareFault>
    requires lawful { IsLawfulTrace trace.now }
    requires options { CanCompare options }
    ensures rows { IfOk result (λ rows. AreAllRows trace.now options rows.items) }
    ensures too_many { HasManyEntries trace.now options → result ≡ Err (many_entries trace.now options) }
    ensures reason { IfErr result (IsReason trace.now options) }
{
    let needed = needed(trace, options.refresh);
    if needed > MOST_ENTRIES as u64 {
        return Err(CompareFault::TooManyEntries(needed));
    }
    let mut rows = Vec::with_capacity(alloc, PAIRS)?;
    for policy in POLICIES {
        add_rows(rt, alloc, trace, options, policy, &mut rows)?;
    }
    Ok(rows)
}

// Adds the rows of the next policy, up to the first pair without a row.
fn add_rows<R: Threads + Sync>(
    rt: &R,
    alloc: Global,
    trace: &Trace,
    options: CompareOptions,
    policy: Policy,
    rows: &mut Vec<CompareRow>,
) -> Result<(), CompareFault>
    requires trace { IsLawfulTrace trace.now × (needed_entries trace.now.rows options.refresh ≤ MOST_ENTRIES) }
    requires options { CanCompare options }
    requires first { AreFirstRows trace.now options rows.old.items }
    requires next { ComesAt (length rows.old.items) policy }
    ensures first { OnOk result (AreFirstRows trace.now options rows.new.items) }
    ensures more { OnOk result (length rows.new.items ≡ length rows.old.items + 3) }
    ensures reason { IfErr result (IsReason trace.now options) }
{
    let made = rows_of(rt, alloc, trace, options, policy)?;
    for k in 0..made.len() {
        add_row(made[k], rows)?;
    }
    Ok(())
}

// Adds a row, or gives the fault where there is none.
fn add_row(
    made: Result<CompareRow, RowFault>,
    rows: &mut Vec<CompareRow>,
) -> Result<(), CompareFault>
    requires { length rows.old.items ≤ 12 }
    ensures added { OnOk result (IsOkAnd made (λ row. rows.new.items ≡ rows.old.items ++ row ∷ [])) }
    ensures fault { IfErr result (IsFaultAt (length rows.old.items) made) }
{
    match made {
        Ok(row) => {
            rows.push(row)?;
            Ok(())
        }
        Err(RowFault::TooLong(cells)) => {
            let row = rows.len() as u32;
            Err(CompareFault::TooLong { row, cells })
        }
        Err(RowFault::NoMemory) => Err(CompareFault::NoMemory),
    }
}
