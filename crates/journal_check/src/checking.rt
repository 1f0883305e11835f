//! The verdict on a journal.
ghost use Rattle.std.specs.Prelude.{◌≡◌, ◌↔◌, [], ◌∷◌, ◌++◌, IsTrue, Some, IfOk, slice_get};
ghost use Rattle.fq_model.specs.History.{history_of};
ghost use Rattle.fq_model.specs.Limits.{InLimits};
ghost use Rattle.fq_model.specs.Rules.{IsLegal};
ghost use Rattle.program_model.specs.Document.{config_of};
ghost use Rattle.program_model.specs.Journal.{call_of};
ghost use Rattle.program_model.specs.declared.verdict.Verdict.TheVariants.{Legal};
ghost use Rattle.program_model.specs.Verdicts.{IsVerdict};
ghost use Rattle.journal_check.specs.Judged.{IsAsAnswered};

use fq_model::config::{Checked, Config, Weights};
use fq_model::event::{Act, Call, Entry};
use journal_text::entries::Journal;
use program_model::verdict::Verdict;
use sched_state::{Scheduler, answer};
use std::alloc::{AllocError, Global};
use tag_rules::chooser::Chooser;

/// Whether each entry of a journal is the entry that its call adds to the entries before it. The calls are made on a
/// scheduler over any chooser, once each, up to the first that isn't answered by its entry.
pub fn check<X: Chooser + Drop>(alloc: Global, journal: &Journal) -> Result<Verdict, AllocError>
    ensures { IfOk result (IsVerdict (config_of journal.now) journal.now.body) }
{
    let config = copy_of(alloc, journal.config())?;
    let mut scheduler = Scheduler::<u64, X>::open(alloc, config)?;
    let verdict = judge(&mut scheduler, journal.body());
    drop(scheduler);
    Ok(verdict)
}

// The verdict on entries, by a scheduler that was just opened.
fn judge<X: Chooser>(scheduler: &mut Scheduler<u64, X>, entries: &[Entry]) -> Verdict
    requires opened { scheduler.old.past ≡ [] }
    requires limits { InLimits scheduler.old.config }
    ensures { IsVerdict scheduler.old.config entries.now result }
{
    for entry in entries {
        match judge_next(scheduler, *entry) {
            Verdict::Legal => {}
            bad => return bad,
        }
    }
    Verdict::Legal
}

/// Makes the call of an entry, and judges the scheduler's entries with this entry after them: it is the first that is
/// not legal where its call adds another entry, or none. The scheduler then has the entry that its own answer added.
pub fn judge_next<X: Chooser>(scheduler: &mut Scheduler<u64, X>, given: Entry) -> Verdict
    requires { InLimits scheduler.old.config }
    ensures config { scheduler.new.config ≡ scheduler.old.config }
    ensures verdict { IsVerdict scheduler.old.config (scheduler.old.past ++ given ∷ []) result }
    ensures past { result ≡ Legal → scheduler.new.past ≡ scheduler.old.past ++ given ∷ [] }
    ensures bad { IsAsAnswered scheduler.old given result scheduler.new }
{
    let k = scheduler.past().len();
    let reply = answer(scheduler, call_of(given));
    let wanted = entry_at(scheduler.past(), k);
    if is_given(wanted, given) {
        Verdict::Legal
    } else {
        Verdict::Bad {
            entry: k as u64 + 1,
            reply,
            wanted,
        }
    }
}

/// The entry with this number, counted from 0, if there is one.
pub(crate) fn entry_at(entries: &[Entry], k: usize) -> Option<Entry>
    ensures { result ≡ slice_get entries.now k }
{
    entries.get(k).copied()
}

// Whether the wanted entry is the given entry.
fn is_given(wanted: Option<Entry>, given: Entry) -> bool
    ensures { IsTrue result ↔ (wanted ≡ Some given) }
{
    wanted == Some(given)
}

/// Makes the call of an entry that may come next, which adds it.
pub fn enter<X: Chooser>(scheduler: &mut Scheduler<u64, X>, entry: Entry)
    requires limits { InLimits scheduler.old.config }
    requires legal { IsLegal scheduler.old.config (entry ∷ history_of scheduler.old.past) }
    ensures config { scheduler.new.config ≡ scheduler.old.config }
    ensures past { history_of scheduler.new.past ≡ entry ∷ history_of scheduler.old.past }
{
    answer(scheduler, call_of(entry));
}

/// The call whose entry this may be.
pub(crate) fn call_of(entry: Entry) -> Call
    ensures { result ≡ call_of entry }
{
    let Entry { who, moment, act } = entry;
    match act {
        Act::Submit {
            request: _,
            tenant,
            kind,
            declared,
            label,
        } => Call::Submit {
            who,
            moment,
            tenant,
            kind,
            declared,
            label,
        },
        Act::Take { worker, .. } => Call::Take {
            who,
            moment,
            worker,
        },
        Act::Report { worker, used, .. } => Call::Report {
            who,
            moment,
            worker,
            used,
        },
        Act::Done { worker, cost, .. } => Call::Done {
            who,
            moment,
            worker,
            cost,
        },
        Act::Close => Call::Close { who, moment },
        Act::Weight { tenant, weight } => Call::Weight {
            who,
            moment,
            tenant,
            weight,
        },
        Act::Workers { count } => Call::Workers { who, moment, count },
        Act::Withdraw { request } => Call::Withdraw {
            who,
            moment,
            request,
        },
    }
}

/// A copy of a configuration.
pub fn copy_of(alloc: Global, config: &Checked) -> Result<Checked, AllocError>
    ensures copy { IfOk result (λ copy. copy ≡ config.now) }
    ensures limits { IfOk result (λ copy. InLimits copy) }
{
    let copy = Config {
        limits: config.limits(),
        workers: config.workers(),
        weights: Weights::from_vec(config.weights().to_vec(alloc)?),
        kinds: config.kinds(),
        entries: config.entries(),
        requests: config.requests(),
        policy: config.policy(),
        estimate: config.estimate(),
        initial: config.initial(),
    };
    Ok(copy.check().unwrap())
}
