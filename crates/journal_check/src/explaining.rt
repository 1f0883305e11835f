//! The explanation of a choice.
ghost use Rattle.std.specs.Prelude.{ℕ, ◌≡◌, ◌<◌, ◌∷◌, [], false, All, IfOk, IfSome, IfNone, length};
ghost use Rattle.fq_model.specs.declared.event.Act.TheVariants as acts;
ghost use Rattle.fq_model.specs.History.{history_of, is_taken, is_take_of};
ghost use Rattle.fq_model.specs.Limits.{InLimits};
ghost use Rattle.fq_model.specs.Rules.{IsLegal};
ghost use Rattle.program_model.specs.Document.{config_of};
ghost use Rattle.program_model.specs.Explanations.{IsRow, AreRows, heads_at, IsExplained, Explains};
ghost use Rattle.journal_check.specs.Turns.{IsTakeAt, IsTakeBy, IsTurn};

use crate::checking::{call_of, copy_of};
use fq_model::config::Checked;
use fq_model::event::{Act, Entry};
use journal_text::entries::Journal;
use program_model::explained::{ExplainRow, Explained};
use sched_state::{Scheduler, answer};
use std::alloc::{AllocError, Global};
use tag_rules::chooser::Chooser;
use tag_rules::head_keys::Keys;
use tag_rules::turn::Turn;

// A Take: at which entry it stands, counted from 0, that entry, and whose it is.
#[derive(Clone, Copy)]
struct TakenAt {
    place: usize,
    entry: Entry,
    worker: u32,
}

/// The heads that a worker chose from when it took this request, and the keys that they were compared by; None where
/// the request was not taken. The calls of the entries up to the Take are made on a scheduler over any chooser, once
/// each.
pub fn explain<X: Chooser + Drop>(
    alloc: Global,
    journal: &Journal,
    request: u32,
) -> Result<Option<Explained>, AllocError>
    requires { IsLegal (config_of journal.now) (history_of journal.now.body) }
    ensures explains { IfOk result (Explains (config_of journal.now) journal.now.body request) }
    ensures known { IfOk result (λ x. IfSome x (λ explained.
        All (λ row. row.tenant < length journal.now.weights) explained.rows.items)) }
{
    match taken_at(journal.body(), request) {
        Some(taken) => Ok(Some(explain_at::<X>(alloc, journal, request, taken)?)),
        None => Ok(None),
    }
}

// Where the request was taken.
fn taken_at(entries: &[Entry], request: u32) -> Option<TakenAt>
    ensures taken { IfSome result (IsTakeAt entries.now request) }
    ensures never { IfNone result (is_taken (history_of entries.now) request ≡ false) }
{
    for (place, entry) in entries.iter().enumerate() {
        let entry = *entry;
        if let Some(worker) = taker_of(entry.act, request) {
            return Some(TakenAt {
                place,
                entry,
                worker,
            });
        }
    }
    None
}

// The worker that the act gives the request to, if it does.
fn taker_of(act: Act, request: u32) -> Option<u32>
    ensures taken { IfSome result (λ worker. (estimate : ℕ) × (act ≡ acts.Take worker request estimate)) }
    ensures other { IfNone result (is_take_of request act ≡ false) }
{
    match act {
        Act::Take {
            worker,
            request: taken,
            ..
        } if taken == request => Some(worker),
        _ => None,
    }
}

// The explanation of a Take that stands there.
fn explain_at<X: Chooser + Drop>(
    alloc: Global,
    journal: &Journal,
    request: u32,
    taken: TakenAt,
) -> Result<Explained, AllocError>
    requires legal { IsLegal (config_of journal.now) (history_of journal.now.body) }
    requires taken { IsTakeAt journal.now.body request taken }
    ensures explained { IfOk result (IsExplained (config_of journal.now) journal.now.body request) }
    ensures known { IfOk result (λ x. All (λ row. row.tenant < length journal.now.weights) x.rows.items) }
{
    let before = &journal.body()[..taken.place];
    let scheduler = scheduler_after::<X>(alloc, journal.config(), before)?;
    let explained = turn_of(alloc, &scheduler, taken.entry, taken.worker);
    drop(scheduler);
    explained
}

// A scheduler to which these entries have come.
fn scheduler_after<X: Chooser + Drop>(
    alloc: Global,
    config: &Checked,
    entries: &[Entry],
) -> Result<Scheduler<u64, X>, AllocError>
    requires { IsLegal config.now (history_of entries.now) }
    ensures config { IfOk result (λ scheduler. scheduler.config ≡ config.now) }
    ensures past { IfOk result (λ scheduler. scheduler.past ≡ entries.now) }
    ensures limits { IfOk result (λ scheduler. InLimits scheduler.config) }
{
    let config = copy_of(alloc, config)?;
    let mut scheduler = Scheduler::<u64, X>::open(alloc, config)?;
    enter_all(&mut scheduler, entries);
    Ok(scheduler)
}

// Makes the calls of these entries.
fn enter_all<X: Chooser>(scheduler: &mut Scheduler<u64, X>, entries: &[Entry])
    requires opened { scheduler.old.past ≡ [] }
    requires limits { InLimits scheduler.old.config }
    requires legal { IsLegal scheduler.old.config (history_of entries.now) }
    ensures config { scheduler.new.config ≡ scheduler.old.config }
    ensures past { scheduler.new.past ≡ entries.now }
{
    for entry in entries {
        answer(scheduler, call_of(*entry));
    }
}

// The turn of the worker whose Take this is.
fn turn_of<X: Chooser>(
    alloc: Global,
    scheduler: &Scheduler<u64, X>,
    given: Entry,
    worker: u32,
) -> Result<Explained, AllocError>
    requires legal { IsLegal scheduler.now.config (given ∷ history_of scheduler.now.past) }
    requires takes { IsTakeBy worker given }
    ensures { IfOk result (IsTurn scheduler.now.config (history_of scheduler.now.past) given.moment worker) }
{
    let vtime = scheduler.virtual_time_at(given.moment);
    let turn = Turn {
        policy: scheduler.config().policy(),
        workers: scheduler.pool(),
        worker,
        virtual_time: vtime,
    };
    let heads = heads_of(alloc, scheduler)?;
    let rows = rows_of(alloc, turn, heads.as_slice())?;
    Ok(Explained {
        worker,
        moment: given.moment,
        vtime,
        rows,
    })
}

// The tenants that have a head, with its keys, by number.
fn heads_of<X: Chooser>(
    alloc: Global,
    scheduler: &Scheduler<u64, X>,
) -> Result<Vec<(u32, Keys)>, AllocError>
    ensures { IfOk result (λ heads. (m : ℕ)
        → heads.items ≡ heads_at scheduler.now.config (history_of scheduler.now.past) m) }
{
    let mut heads = Vec::new(alloc);
    for tenant in 0..scheduler.config().tenants() {
        if let Some(keys) = scheduler.keys(tenant) {
            heads.push((tenant, keys))?;
        }
    }
    Ok(heads)
}

// A row for each head.
fn rows_of(alloc: Global, turn: Turn, heads: &[(u32, Keys)]) -> Result<Vec<ExplainRow>, AllocError>
    ensures { IfOk result (λ rows. AreRows turn heads.now rows.items) }
{
    let mut rows = Vec::new(alloc);
    for head in heads {
        rows.push(row_of(turn, head.0, head.1))?;
    }
    Ok(rows)
}

fn row_of(turn: Turn, tenant: u32, keys: Keys) -> ExplainRow
    ensures { IsRow turn tenant keys result }
{
    ExplainRow {
        tenant,
        head: keys.request,
        start: keys.start,
        finish: keys.finish(),
        key: turn.eligible_key(keys),
        eligible: turn.is_eligible(keys),
    }
}
