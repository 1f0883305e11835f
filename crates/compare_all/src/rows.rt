//! The row of a policy and an estimator on a trace.
ghost use Rattle.std.specs.Prelude.{◌≡◌, ◌≤◌, ◌+◌, ◌*◌, length, None, IfOk};
ghost use Rattle.std.specs.List.{AllZip};
ghost use Rattle.fq_model.specs.History.{history_of};
ghost use Rattle.fq_model.specs.Limits.{HasTextLimits};
ghost use Rattle.fq_model.specs.Report.{unfinished};
ghost use Rattle.fq_model.specs.declared.limits.TheConstants.{MOST_ENTRIES, GREATEST_SLOT};
ghost use Rattle.vt_fixed.specs.declared.limits.TheConstants.{GREATEST_MOMENT};
ghost use Rattle.program_model.specs.CommandOptions.{estimators};
ghost use Rattle.program_model.specs.RunLimits.{CanCompare};
ghost use Rattle.program_model.specs.Simulated.{needed_entries};
ghost use Rattle.program_model.specs.TraceText.{IsLawfulTrace};
ghost use Rattle.compare_all.specs.Rows.{IsMade, IsMadeOf};

use fitted_chooser::chooser::ProgramChooser;
use fq_model::config::{Checked, Estimator, Policy};
use fq_model::limits::MOST_CELLS;
use lag_report::automatic::auto_slot;
use lag_report::extremes::{greatest_lag, least_lag};
use lag_report::fault::ReportFault;
use lag_report::reporting::last_report;
use program_model::compare::{CompareOptions, CompareRow, ESTIMATORS};
use program_model::trace::RunOptions;
use rayon::prelude::*;
use sched_journal::History;
use std::alloc::{AllocError, Global};
use std::thread::Threads;
use thiserror::Error;
use trace_reader::trace::Trace;
use trace_runner::fault::SimFault;
use trace_runner::runner::simulate;

/// Why there is no row.
#[derive(Clone, Copy, Debug, PartialEq, Eq, Error)]
pub enum RowFault {
    /// Its report would have this number of cells, which is too many.
    #[error("a report of {0} cells, and there may be {MOST_CELLS}")]
    TooLong(u64),
    /// Memory ran out.
    #[error("out of memory")]
    NoMemory,
}

/// The rows of one policy, in the order of the estimators, each with its fault where it has none. The estimators run
/// side by side: a piece of work that `rayon` hands to a thread may be one item here, since an item is a whole
/// simulation.
pub fn rows_of<R: Threads + Sync>(
    rt: &R,
    alloc: Global,
    trace: &Trace,
    options: CompareOptions,
    policy: Policy,
) -> Result<Vec<Result<CompareRow, RowFault>>, AllocError>
    requires lawful { IsLawfulTrace trace.now }
    requires options { CanCompare options }
    requires few { needed_entries trace.now.rows options.refresh ≤ MOST_ENTRIES }
    ensures { IfOk result (λ v. AllZip (λ estimate made. IsMade trace.now options (policy, estimate) made)
        estimators v.items) }
{
    ESTIMATORS
        .par_iter()
        .with_min_len(1)
        .map(
            |estimate: &Estimator| -> Result<CompareRow, RowFault>
                requires lawful { IsLawfulTrace trace.now }
                requires options { CanCompare options }
                requires few { needed_entries trace.now.rows options.refresh ≤ MOST_ENTRIES }
                ensures { IsMade trace.entry.now options (policy, estimate.now) result }
            { row(alloc, trace, options, policy, *estimate) },
        )
        .collect(rt, alloc)
}

// The row of a policy and an estimator. Its history is given up once its entries are read for the report.
fn row(
    alloc: Global,
    trace: &Trace,
    options: CompareOptions,
    policy: Policy,
    estimate: Estimator,
) -> Result<CompareRow, RowFault>
    requires lawful { IsLawfulTrace trace.now }
    requires options { CanCompare options }
    requires few { needed_entries trace.now.rows options.refresh ≤ MOST_ENTRIES }
    ensures { IsMade trace.now options (policy, estimate) result }
{
    let CompareOptions {
        workers,
        initial,
        refresh,
        slot,
    } = options;
    let options = RunOptions {
        workers,
        policy,
        estimate,
        initial,
        refresh,
    };
    match simulate::<ProgramChooser>(alloc, trace, options) {
        Ok(history) => row_of_history(alloc, history, policy, estimate, slot),
        Err(SimFault::TooManyEntries(_)) => unreachable!(),
        Err(SimFault::NoMemory) => Err(RowFault::NoMemory),
    }
}

// The row of a history, by the slot that is asked for, or by the automatic one.
fn row_of_history(
    alloc: Global,
    history: History,
    policy: Policy,
    estimate: Estimator,
    asked: u64,
) -> Result<CompareRow, RowFault>
    requires slot { asked ≤ GREATEST_SLOT }
    requires text { HasTextLimits history.config }
    requires done { unfinished (history_of history.past) ≡ None }
    ensures { IsMadeOf asked (policy, estimate) history.config (history_of history.past) result }
{
    let (config, past) = history.into_parts();
    let slot = if asked == 0 {
        auto_slot(past.as_slice(), &config)
    } else {
        asked
    };
    match last_report(alloc, past, &config, slot) {
        Ok(report) => Ok(CompareRow {
            policy,
            estimate,
            end: report.end(),
            entries: report.entries(),
            least: least_lag(report.rows()),
            greatest: greatest_lag(report.rows()),
        }),
        Err(ReportFault::TooLong { slots, .. }) => Err(RowFault::TooLong(cells(slots, &config))),
        Err(ReportFault::Unfinished(_)) => unreachable!(),
        Err(ReportFault::NoMemory) => Err(RowFault::NoMemory),
    }
}

// The number of cells of this number of slots, for the tenants of a configuration.
fn cells(slots: u64, config: &Checked) -> u64
    requires text { HasTextLimits config.now }
    requires slots { slots ≤ GREATEST_MOMENT + 1 }
    ensures { result ≡ slots * length config.now.weights }
{
    slots * config.tenants() as u64
}
