//! The simulation.
ghost use Rattle.std.specs.Prelude.{◌≡◌, ◌+◌, ◌<◌, ◌⊎◌, length, IfOk, IfErr, Err};
ghost use Rattle.fq_model.specs.History.{history_of};
ghost use Rattle.program_model.specs.Simulated.{run_config, IsSimulated};
ghost use Rattle.program_model.specs.TraceText.{IsLawfulTrace};
ghost use Rattle.trace_runner.specs.Agenda.{IsNext};
ghost use Rattle.program_model.specs.RunLimits.{AreInRange};
ghost use Rattle.trace_runner.specs.Plan.{IsTooLong, too_long};
ghost use Rattle.trace_runner.specs.Simulation.{Simulates};
ghost use Rattle.trace_runner.specs.declared.fault.SimFault.TheVariants as faults;

use crate::agenda::{Agenda, Event, EventCall};
use crate::fault::SimFault;
use crate::needed::needed;
use crate::staff::Work;
use fq_model::limits::{LEAST_ENTRIES, MOST_ENTRIES};
use program_model::trace::RunOptions;
use sched_journal::History;
use sched_state::{Scheduler, Taken};
use std::alloc::Global;
use tag_rules::chooser::Chooser;
use trace_reader::opening::{config_of, submitters};
use trace_reader::trace::Trace;

/// The simulated history of a trace. Each request comes at its row's moment, runs for
/// its cost from its Take on, and is reported after each `refresh` microseconds of that. At one moment Reports are
/// before Dones, Dones before Submits, and Submits before Takes; these go by worker, and Submits by row. No worker is
/// idle while a request waits. Submitters are the callers from 0 on, workers those that follow, and labels are the
/// rows' numbers from 0. An entry takes the time of the scheduler's call, and the logarithm of the number of workers.
/// All memory is taken at the opening, and none where there would be too many entries.
pub fn simulate<X: Chooser + Drop>(
    alloc: Global,
    trace: &Trace,
    options: RunOptions,
) -> Result<History, SimFault>
    requires lawful { IsLawfulTrace trace.now }
    requires options { AreInRange options }
    ensures simulated { IfOk result (λ h. IsSimulated trace.now options (history_of h.past)) }
    ensures config { IfOk result (λ h. h.config ≡ run_config trace.now options) }
    ensures too_many { IsTooLong trace.now options → result ≡ Err (too_long trace.now options) }
    ensures fault { IfErr result (λ f. (f ≡ faults.NoMemory)
        ⊎ ((f ≡ too_long trace.now options) × IsTooLong trace.now options)) }
{
    let needed = needed(trace, options.refresh);
    if needed > MOST_ENTRIES as u64 {
        return Err(SimFault::TooManyEntries(needed));
    }
    let entries = (needed as u32).max(LEAST_ENTRIES);
    let config = config_of(alloc, trace, options, entries)?;
    let mut agenda = Agenda::open(alloc, options.workers, submitters(trace.rows()))?;
    let mut scheduler: Scheduler<u64, X> = Scheduler::open(alloc, config)?;
    'events: while let Some(event) = agenda.next(trace.rows()) {
        step(&mut scheduler, &mut agenda, trace, options, event);
    }
    scheduler.close(0, agenda.moment).unwrap();
    Ok(scheduler.into_history())
}

// Makes the call of the next event, and notes it in the agenda.
fn step<X: Chooser + Drop>(
    scheduler: &mut Scheduler<u64, X>,
    agenda: &mut Agenda,
    trace: &Trace,
    options: RunOptions,
    event: Event,
)
    requires simulates { Simulates trace.now options scheduler.old agenda.old }
    requires next { IsNext agenda.old trace.now.rows event }
    ensures simulates { Simulates trace.now options scheduler.new agenda.new }
    ensures grows { length scheduler.new.past ≡ length scheduler.old.past + 1 }
{
    let moment = event.moment;
    match event.what {
        EventCall::Report { worker, work } => {
            scheduler
                .report(agenda.caller(worker), moment, worker, work.due)
                .unwrap();
            agenda.worked(moment, worker, Some(work.after_report(options.refresh)));
        }
        EventCall::Done { worker, work } => {
            scheduler
                .done(agenda.caller(worker), moment, worker, work.cost)
                .unwrap();
            agenda.worked(moment, worker, None);
        }
        EventCall::Submit(row) => {
            let label = agenda.submitted as u64;
            scheduler
                .submit(
                    row.submitter,
                    moment,
                    row.tenant,
                    row.kind,
                    row.declared,
                    label,
                )
                .unwrap();
            agenda.came(moment);
        }
        EventCall::Take { worker } => match scheduler.take(agenda.caller(worker), moment, worker) {
            Taken::Run { request, .. } => {
                let cost = trace.rows()[request as usize].cost;
                agenda.taken(worker, Work::new(moment, cost, options.refresh));
            }
            _ => unreachable!(),
        },
    }
}
