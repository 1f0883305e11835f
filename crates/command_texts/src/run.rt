//! `run`: the answer from the simulated history of a trace.
ghost use Rattle.std.specs.Prelude.{◌≡◌, ◌≤◌, IfOk, string_bytes};
ghost use Rattle.fq_model.specs.declared.limits.TheConstants.{GREATEST_SLOT};
ghost use Rattle.program_model.specs.HistoryAnswer.{entries_answer, entries_text};
ghost use Rattle.program_model.specs.RunCommand.{IsRunAnswer, IsSimulationAnswer};
ghost use Rattle.program_model.specs.RunLimits.{AreInRange};
ghost use Rattle.program_model.specs.TraceText.{IsLawfulTrace};
ghost use Rattle.command_texts.specs.Making.{Makes, IsStop};

use crate::history::last_history;
use crate::messages::told;
use crate::traces::trace;
use fitted_chooser::chooser::ProgramChooser;
use program_model::command::HistoryPrint;
use program_model::ending::{Output, Stop};
use program_model::trace::RunOptions;
use std::alloc::{AllocError, Global};
use trace_reader::trace::Trace;
use trace_runner::fault::SimFault;
use trace_runner::runner::simulate;

/// The answer of `run` to its input, which is given up before the trace is simulated.
pub fn answer(
    alloc: Global,
    options: RunOptions,
    slot: u64,
    what: HistoryPrint,
    input: Vec<u8>,
) -> Result<Output, Stop>
    requires options { AreInRange options }
    requires slot { slot ≤ GREATEST_SLOT }
    ensures { Makes (IsRunAnswer options slot what input.items) result }
{
    let trace = trace(alloc, input)?;
    simulated(alloc, trace, options, slot, what)
}

/// The answer from the simulated history of a trace, whose requests are given up once there is a history.
pub fn simulated(
    alloc: Global,
    trace: Trace,
    options: RunOptions,
    slot: u64,
    what: HistoryPrint,
) -> Result<Output, Stop>
    requires lawful { IsLawfulTrace trace }
    requires options { AreInRange options }
    requires slot { slot ≤ GREATEST_SLOT }
    ensures { Makes (IsSimulationAnswer options slot what trace) result }
{
    let simulated = simulate::<ProgramChooser>(alloc, &trace, options);
    let (tenants, kinds) = trace.into_names();
    match simulated {
        Ok(history) => last_history(alloc, what, slot, history, &tenants, &kinds),
        Err(SimFault::TooManyEntries(needed)) => Err(too_many_entries(alloc, needed)),
        Err(SimFault::NoMemory) => Err(Stop::NoMemory),
    }
}

/// Where a history would have more entries than there may be, a message with the number of entries.
pub fn too_many_entries(alloc: Global, needed: u64) -> Stop
    ensures { IsStop (λ answer. answer ≡ entries_answer needed) result }
{
    told(alloc, 7, entries_text(alloc, needed))
}

fn entries_text(alloc: Global, needed: u64) -> Result<String, AllocError>
    ensures { IfOk result (λ text. string_bytes text ≡ entries_text needed) }
{
    let text = format!(in alloc; "the history would have {needed} entries, more than 4194304")?;
    Ok(text)
}
