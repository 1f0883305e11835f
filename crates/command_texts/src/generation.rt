//! `gen`: a generated trace, or the summary of its simulated history.
ghost use Rattle.std.specs.Prelude.{◌≤◌};
ghost use Rattle.fq_model.specs.declared.limits.TheConstants.{TEXT_TENANTS, MOST_ROWS};
ghost use Rattle.fq_model.specs.Limits.{IsWithin};
ghost use Rattle.program_model.specs.GenCommand.{IsGenAnswer};
ghost use Rattle.command_texts.specs.Making.{Makes};

use crate::run::simulated;
use fq_model::config::{Estimator, Policy};
use program_model::command::{GenPrint, HistoryPrint};
use program_model::ending::{Output, Stop};
use program_model::trace::RunOptions;
use std::alloc::Global;
use trace_reader::generating::generate;
use trace_reader::printing::print;

/// The options of `run` where none are given.
const DEFAULT_OPTIONS: RunOptions = RunOptions {
    workers: 4,
    policy: Policy::TwoDfq,
    estimate: Estimator::Pessimistic,
    initial: 1000,
    refresh: 10000,
};

/// The answer of `gen`: the trace of a seed as a text, or the summary of its simulated history under the default
/// options and the automatic slot.
pub fn answer(
    alloc: Global,
    seed: u64,
    tenants: u32,
    requests: u32,
    what: GenPrint,
) -> Result<Output, Stop>
    requires tenants { IsWithin 1 TEXT_TENANTS tenants }
    requires requests { requests ≤ MOST_ROWS }
    ensures { Makes (IsGenAnswer seed tenants requests what) result }
{
    let Ok(trace) = generate(alloc, seed, tenants, requests) else {
        return Err(Stop::NoMemory);
    };
    match what {
        GenPrint::Trace => {
            let text = print(alloc, &trace);
            drop(trace);
            Ok(Output::success(text?))
        }
        GenPrint::Summary => simulated(alloc, trace, DEFAULT_OPTIONS, 0, HistoryPrint::Summary),
    }
}
