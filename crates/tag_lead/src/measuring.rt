//! Entries judged, and the lengths of their requests measured.
ghost use Rattle.std.specs.Prelude.{◌≡◌, ◌<◌, [], IfOk, IfErr, length};
ghost use Rattle.fq_model.specs.History.{history_of};
ghost use Rattle.fq_model.specs.Limits.{InLimits};
ghost use Rattle.charge_book.specs.Histories.{row_of_worker};
ghost use Rattle.tag_lead.specs.Faults.{IsLeadFault};
ghost use Rattle.tag_lead.specs.Measured.{IsMeasured};
ghost use Rattle.tag_lead.specs.Spans.{HasWorker, row_of_act};

use crate::fault::LeadFault;
use crate::greatest::Greatest;
use crate::spans::{Spans, measured_by};
use charge_book::row::RunRow;
use fq_model::config::Checked;
use fq_model::event::{Act, Entry};
use journal_check::checking::{copy_of, judge_next};
use program_model::verdict::Verdict;
use sched_state::Scheduler;
use std::alloc::Global;
use tag_rules::chooser::Chooser;

/// The lengths of the requests of a history, in steps.
#[derive(Drop)]
pub struct Measured {
    /// Those of two tenants.
    pub spans: Spans,
    /// The greatest length of any request, by its charge or as a head just before a Take; 1 at least.
    pub longest: u128,
}

/// The greatest lengths of the requests of tenant f, the least lengths of those of tenant g, and the greatest length of
/// any request; the verdict where the entries are not legal. The calls of the entries are made on a scheduler over any
/// chooser, once each, up to the first entry that is not legal.
pub fn measure<X: Chooser + Drop>(
    alloc: Global,
    entries: &[Entry],
    config: &Checked,
    f: u32,
    g: u32,
) -> Result<Measured, LeadFault>
    ensures measured { IfOk result (IsMeasured config.now (history_of entries.now) f g (length entries.now)) }
    ensures fault { IfErr result (IsLeadFault config.now entries.now) }
{
    let config = copy_of(alloc, config)?;
    let mut scheduler = Scheduler::<u64, X>::open(alloc, config)?;
    let measured = measured_in(alloc, &mut scheduler, entries, f, g);
    drop(scheduler);
    measured
}

// The lengths, by a scheduler that was just opened.
fn measured_in<X: Chooser>(
    alloc: Global,
    scheduler: &mut Scheduler<u64, X>,
    entries: &[Entry],
    f: u32,
    g: u32,
) -> Result<Measured, LeadFault>
    requires opened { scheduler.old.past ≡ [] }
    requires limits { InLimits scheduler.old.config }
    ensures measured { IfOk result (IsMeasured scheduler.old.config (history_of entries.now) f g (length entries.now)) }
    ensures fault { IfErr result (IsLeadFault scheduler.old.config entries.now) }
{
    let mut spans = Spans::open(alloc, entries.len())?;
    let mut greatest = Greatest::open(alloc, entries.len())?;
    for entry in entries {
        greatest.read_heads(scheduler, entry.act);
        let before = row_of(scheduler, entry.act);
        match judge_next(scheduler, *entry) {
            Verdict::Legal => {}
            bad => return Err(LeadFault::NotLegal(bad)),
        }
        let after = row_of(scheduler, entry.act);
        let length = measured_by(entry.act, before, after);
        spans.note(f, g, length);
        greatest.note(entry.act, length);
    }
    Ok(Measured {
        spans,
        longest: greatest.length,
    })
}

// The request that the worker of the act runs, if the act has a worker.
fn row_of<X: Chooser>(scheduler: &Scheduler<u64, X>, act: Act) -> Option<RunRow>
    ensures { HasWorker scheduler.now.config act
        → result ≡ row_of_act scheduler.now.config (history_of scheduler.now.past) act }
{
    match act {
        Act::Take { worker, .. } => running(scheduler, worker),
        Act::Report { worker, .. } => running(scheduler, worker),
        Act::Done { worker, .. } => running(scheduler, worker),
        _ => None,
    }
}

// The request that the worker runs. An entry that is not legal may name a worker that is not one of the configuration.
fn running<X: Chooser>(scheduler: &Scheduler<u64, X>, worker: u32) -> Option<RunRow>
    ensures { worker < scheduler.now.config.workers
        → result ≡ row_of_worker scheduler.now.config (history_of scheduler.now.past) worker }
{
    if worker < scheduler.config().workers() {
        scheduler.running(worker)
    } else {
        None
    }
}
