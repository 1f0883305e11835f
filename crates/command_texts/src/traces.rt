//! The input of a command that reads a trace.
ghost use Rattle.std.specs.Prelude.{◌≡◌, Ok, IfOk, IfErr};
ghost use Rattle.program_model.specs.TraceGrammar.{trace_of};
ghost use Rattle.program_model.specs.TraceText.{IsLawfulTrace};
ghost use Rattle.command_texts.specs.Making.{IsStop, IsTraceFault, TellsTraceFault};

use crate::messages::told;
use program_model::ending::Stop;
use std::alloc::Global;
use trace_reader::fault::TraceFault;
use trace_reader::messages::placed_fault;
use trace_reader::reading::read;
use trace_reader::trace::Trace;

/// The trace that an input spells; or a message that names its first fault. The input is given up.
pub fn trace(alloc: Global, input: Vec<u8>) -> Result<Trace, Stop>
    ensures read { IfOk result (λ trace. trace_of input.items ≡ Ok trace) }
    ensures lawful { IfOk result IsLawfulTrace }
    ensures stop { IfErr result (IsStop (IsTraceFault input.items)) }
{
    let trace = read(alloc, input.as_slice());
    drop(input);
    match trace {
        Ok(trace) => Ok(trace),
        Err(fault) => Err(fault_stop(alloc, fault)),
    }
}

// Where an input is no trace, a message that names its first fault.
fn fault_stop(alloc: Global, fault: TraceFault) -> Stop
    ensures { IsStop (TellsTraceFault fault) result }
{
    match fault {
        TraceFault::At { line, kind } => told(alloc, 3, placed_fault(alloc, line, kind)),
        TraceFault::NoMemory => Stop::NoMemory,
    }
}
