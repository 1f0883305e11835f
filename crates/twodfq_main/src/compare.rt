//! `compare`: a trace under the published policies and all estimators, and the best of them.
ghost use Rattle.program_model.specs.CompareCommand.{IsCompareAnswer, IsComparisonAnswer};
ghost use Rattle.program_model.specs.RunLimits.{CanCompare};
ghost use Rattle.program_model.specs.TraceText.{IsLawfulTrace};
ghost use Rattle.command_texts.specs.Making.{Makes};

use command_texts::history::too_many_cells;
use command_texts::run::too_many_entries;
use command_texts::traces::trace;
use compare_all::comparing::compare;
use compare_all::fault::CompareFault;
use compare_all::printing::print;
use program_model::compare::CompareOptions;
use program_model::ending::{Output, Stop};
use std::alloc::Global;
use std::thread::Threads;
use trace_reader::trace::Trace;

/// The answer of `compare` to its input, which is dropped before the trace is simulated. It always returns.
pub fn answer<T: Threads + Sync>(
    rt: &T,
    alloc: Global,
    options: CompareOptions,
    input: Vec<u8>,
) -> Result<Output, Stop>
    requires { CanCompare options }
    ensures { Makes (IsCompareAnswer options input.items) result }
{
    let trace = trace(alloc, input)?;
    let output = compared(rt, alloc, &trace, options);
    drop(trace);
    output
}

// The answer for a trace.
fn compared<T: Threads + Sync>(
    rt: &T,
    alloc: Global,
    trace: &Trace,
    options: CompareOptions,
) -> Result<Output, Stop>
    requires lawful { IsLawfulTrace trace.now }
    requires options { CanCompare options }
    ensures { Makes (IsComparisonAnswer options trace.now) result }
{
    match compare(rt, alloc, trace, options) {
        Ok(rows) => {
            let text = print(alloc, rows.as_slice());
            drop(rows);
            Ok(Output::success(text?))
        }
        Err(CompareFault::TooManyEntries(needed)) => Err(too_many_entries(alloc, needed)),
        Err(CompareFault::TooLong { cells, .. }) => Err(too_many_cells(alloc, cells as u128)),
        Err(CompareFault::NoMemory) => Err(Stop::NoMemory),
    }
}
