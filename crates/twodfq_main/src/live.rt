//! `live`: one history of a pool of threads that serves a trace, in the forms that are asked for.
ghost use Rattle.std.specs.Prelude.{◌≤◌};
ghost use Rattle.fq_model.specs.declared.limits.TheConstants.{GREATEST_SLOT};
ghost use Rattle.program_model.specs.LiveCommand.{IsLiveAnswer, IsPoolAnswer};
ghost use Rattle.program_model.specs.RunLimits.{AreInRange};
ghost use Rattle.program_model.specs.TraceText.{IsLawfulTrace};
ghost use Rattle.command_texts.specs.Making.{Makes};

use crate::statuses::after_lines;
use command_texts::history::last_history;
use command_texts::run::too_many_entries;
use command_texts::traces::trace;
use fitted_chooser::chooser::ProgramChooser;
use fq_io::Clock;
use program_model::command::LiveOptions;
use program_model::ending::{Output, Stop};
use std::alloc::Global;
use std::sync::Wait;
use std::thread::Threads;
use trace_pool::fault::PoolFault;
use trace_pool::serving::{Served, serve};
use trace_reader::trace::Trace;

/// The answer of `live` to its input, which is dropped before the pool begins. Only the pool's threads ask the clock.
pub fn answer<T: Wait + Threads + Sync, K: Clock + Sync>(
    rt: &T,
    alloc: Global,
    options: LiveOptions,
    input: Vec<u8>,
    clock: &K,
) -> Result<Output, Stop>
    requires { AreInRange options.run × (options.slot ≤ GREATEST_SLOT) }
    ensures { Makes (IsLiveAnswer (K.tells clock.now) options input.items) result }
{
    let trace = trace(alloc, input)?;
    let output = served(rt, alloc, &trace, options, clock);
    drop(trace);
    output
}

// The answer for one history of a pool that serves the trace.
fn served<T: Wait + Threads + Sync, K: Clock + Sync>(
    rt: &T,
    alloc: Global,
    trace: &Trace,
    options: LiveOptions,
    clock: &K,
) -> Result<Output, Stop>
    requires lawful { IsLawfulTrace trace.now }
    requires options { AreInRange options.run × (options.slot ≤ GREATEST_SLOT) }
    ensures { Makes (IsPoolAnswer (K.tells clock.now) options trace.now) result }
{
    let served = serve::<ProgramChooser, K, T>(rt, alloc, trace, options.run, options.watch, clock);
    match served {
        Ok(served) => {
            let Served { history, statuses } = served;
            let (tenants, kinds) = (trace.tenants(), trace.kinds());
            let output = last_history(alloc, options.print, options.slot, history, tenants, kinds)?;
            Ok(after_lines(alloc, statuses, output)?)
        }
        Err(PoolFault::TooManyEntries(needed)) => Err(too_many_entries(alloc, needed)),
        Err(PoolFault::NoMemory) => Err(Stop::NoMemory),
    }
}
