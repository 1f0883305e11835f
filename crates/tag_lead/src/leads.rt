//! How far one tenant got ahead of another while both waited.
ghost use Rattle.std.specs.Prelude.{◌≡◌, ◌≢◌, ◌<◌, ◌≤◌, ◌≤ℤ◌, ◌∷◌, [], length, slice_index};
ghost use Rattle.std.specs.Prelude.{IsTrue, IfOk, IfErr, IfSome, Err, Some, None};
ghost use Rattle.fq_model.specs.History.{history_of};
ghost use Rattle.fq_model.specs.Lead.{doubt};
ghost use Rattle.fq_model.specs.Limits.{InLimits};
ghost use Rattle.fq_model.specs.Rules.{IsLegal};
ghost use Rattle.tag_difference.specs.Pairs.{difference_at, tenant_fault};
ghost use Rattle.tag_difference.specs.declared.fault.GapFault.{GapFault};
ghost use Rattle.tag_lead.specs.Faults.{IsLeadFault, IsPairFault};
ghost use Rattle.tag_lead.specs.Maxima.{LeadsIn};
ghost use Rattle.tag_lead.specs.Leads.{difference_by, taken_by, taken_at, IsLead};
ghost use Rattle.tag_lead.specs.Spans.{LongestAre, ShortestAre};
ghost use Rattle.tag_lead.specs.declared.fault.PairFault.TheVariants.{Tenants};

use crate::doubts::doubt;
use crate::fault::{LeadFault, PairFault};
use crate::greatest::ever_bound;
use crate::limits::{GREATEST_DOUBT, GREATEST_LENGTH};
use crate::maxima::Leads;
use crate::measuring::{Measured, measure};
use crate::spans::Spans;
use fq_model::config::Checked;
use fq_model::event::{Act, Entry};
use fq_model::limits::GREATEST_START;
use journal_check::checking::{copy_of, enter};
use sched_state::Scheduler;
use std::alloc::{AllocError, Global};
use tag_difference::gap::Gap;
use tag_difference::pair::tenant_fault;
use tag_rules::chooser::Chooser;
use tag_rules::head_keys::Keys;

/// How far one tenant got ahead of another while both waited, in steps.
#[derive(Clone, Copy, Debug, PartialEq, Eq)]
pub struct Lead {
    /// The greatest difference of their starts, and its bound.
    pub gap: Gap,
    /// Under 2dfq+ a bound that asks nothing of the past: by the greatest length of a request in it.
    pub ever: Option<i128>,
}

/// How far the start of tenant f was above that of tenant g at most, at the prefixes of a past in which both wait, and
/// what bounds it, whatever requests cost; none where they never wait both. The bound is the greater of two numbers:
/// the greatest lead with which both began to wait, and one length of a head, or two under 2dfq and 2dfq+, with the
/// doubt of the requests that ran: each may turn out as long, or as short, as it did in this past. The faults of the
/// tenants are found before any memory is taken, and no request is a fault.
pub fn tag_lead<X: Chooser + Drop>(
    alloc: Global,
    past: &[Entry],
    config: &Checked,
    f: u32,
    g: u32,
) -> Result<Option<Lead>, PairFault>
    ensures lead { IfOk result (λ lead. (tenant_fault config.now f g ≡ None)
        × IsLegal config.now (history_of past.now) × IsLead config.now (history_of past.now) f g lead) }
    ensures tenants { (x : GapFault) → tenant_fault config.now f g ≡ Some x → result ≡ Err (Tenants x) }
    ensures bounded { IfOk result (λ lead. IfSome lead (λ x. x.gap.largest ≤ℤ x.gap.bound)) }
    ensures fault { IfErr result (IsPairFault config.now past.now f g) }
{
    if let Some(fault) = tenant_fault(config, f, g) {
        return Err(PairFault::Tenants(fault));
    }
    match lead_of::<X>(alloc, past, config, f, g) {
        Ok(lead) => Ok(lead),
        Err(fault) => Err(PairFault::Entries(fault)),
    }
}

/// The lead of one tenant over another in entries, or the verdict where the entries are not legal. The calls of the
/// entries are made on a scheduler over any chooser: once to judge them, and once more where they are legal.
pub fn lead_of<X: Chooser + Drop>(
    alloc: Global,
    entries: &[Entry],
    config: &Checked,
    f: u32,
    g: u32,
) -> Result<Option<Lead>, LeadFault>
    requires f_known { f < length config.now.weights }
    requires g_known { g < length config.now.weights }
    requires apart { f ≢ g }
    ensures lead { IfOk result (λ lead. IsLegal config.now (history_of entries.now)
        × IsLead config.now (history_of entries.now) f g lead) }
    ensures bounded { IfOk result (λ lead. IfSome lead (λ x. x.gap.largest ≤ℤ x.gap.bound)) }
    ensures fault { IfErr result (IsLeadFault config.now entries.now) }
{
    let Measured { spans, longest } = measure::<X>(alloc, entries, config, f, g)?;
    let leads = leads_of::<X>(alloc, entries, config, &spans, f, g);
    drop(spans);
    let ever = ever_bound(config, longest);
    match leads?.lead(config.policy()) {
        Some(gap) => Ok(Some(Lead { gap, ever })),
        None => Ok(None),
    }
}

// The greatest leads, by the lengths of the requests in the whole past.
fn leads_of<X: Chooser + Drop>(
    alloc: Global,
    past: &[Entry],
    config: &Checked,
    spans: &Spans,
    f: u32,
    g: u32,
) -> Result<Leads, AllocError>
    requires legal { IsLegal config.now (history_of past.now) }
    requires f_known { f < length config.now.weights }
    requires g_known { g < length config.now.weights }
    requires longest { LongestAre config.now (history_of past.now) f (length past.now) spans.now.longest.items }
    requires shortest { ShortestAre config.now (history_of past.now) g (length past.now) spans.now.shortest.items }
    ensures { IfOk result (LeadsIn config.now (history_of past.now) (history_of past.now) f g) }
{
    let config = copy_of(alloc, config)?;
    let mut scheduler = Scheduler::<u64, X>::open(alloc, config)?;
    let leads = leads_in(&mut scheduler, past, spans, f, g);
    drop(scheduler);
    Ok(leads)
}

// The greatest leads, by a scheduler that was just opened.
fn leads_in<X: Chooser>(
    scheduler: &mut Scheduler<u64, X>,
    past: &[Entry],
    spans: &Spans,
    f: u32,
    g: u32,
) -> Leads
    requires opened { scheduler.old.past ≡ [] }
    requires limits { InLimits scheduler.old.config }
    requires legal { IsLegal scheduler.old.config (history_of past.now) }
    requires f_known { f < length scheduler.old.config.weights }
    requires g_known { g < length scheduler.old.config.weights }
    requires longest { LongestAre scheduler.old.config (history_of past.now) f (length past.now)
        spans.now.longest.items }
    requires shortest { ShortestAre scheduler.old.config (history_of past.now) g (length past.now)
        spans.now.shortest.items }
    ensures { LeadsIn scheduler.old.config (history_of past.now) (history_of past.now) f g result }
{
    let mut leads = Leads::new();
    for entry in past {
        let taken = taken(scheduler, *entry, f, g);
        enter(scheduler, *entry);
        let difference = difference(scheduler, f, g);
        let doubt = doubt_where(leads.asks_doubt(difference, taken), scheduler, spans, f, g);
        leads = leads.with(difference, taken, doubt);
    }
    leads
}

// The doubt about the requests that run, where it is asked for: it reads each worker.
fn doubt_where<X: Chooser>(
    asked: bool,
    scheduler: &Scheduler<u64, X>,
    spans: &Spans,
    f: u32,
    g: u32,
) -> u128
    requires limits { InLimits scheduler.now.config }
    requires legal { IsLegal scheduler.now.config (history_of scheduler.now.past) }
    requires longest { length scheduler.now.past ≤ length spans.now.longest.items }
    requires shortest { length scheduler.now.past ≤ length spans.now.shortest.items }
    ensures value { IsTrue asked → result ≡ doubt (slice_index spans.now.longest.items)
        (slice_index spans.now.shortest.items) scheduler.now.config (history_of scheduler.now.past) f g }
    ensures low { result ≤ GREATEST_DOUBT }
{
    if asked {
        doubt(scheduler, spans, f, g)
    } else {
        0
    }
}

// The difference of the starts of f and g, where both wait.
fn difference<X: Chooser>(scheduler: &Scheduler<u64, X>, f: u32, g: u32) -> Option<i128>
    requires limits { InLimits scheduler.now.config }
    requires legal { IsLegal scheduler.now.config (history_of scheduler.now.past) }
    requires f_known { f < length scheduler.now.config.weights }
    requires g_known { g < length scheduler.now.config.weights }
    ensures value { result ≡ difference_at scheduler.now.config (history_of scheduler.now.past) f g }
    ensures high { IfSome result (λ d. d ≤ℤ GREATEST_START) }
{
    difference_by(scheduler.keys(f), scheduler.keys(g))
}

// The difference, by the keys of their heads.
fn difference_by(first: Option<Keys>, second: Option<Keys>) -> Option<i128>
    ensures value { result ≡ difference_by first second }
    ensures high { IfSome result (λ d. d ≤ℤ GREATEST_START) }
{
    match (first, second) {
        (Some(first), Some(second)) => Some(first.start - second.start),
        _ => None,
    }
}

// The greater length of their heads, where this entry takes a request of f while both wait.
fn taken<X: Chooser>(scheduler: &Scheduler<u64, X>, entry: Entry, f: u32, g: u32) -> Option<u128>
    requires limits { InLimits scheduler.now.config }
    requires legal { IsLegal scheduler.now.config (entry ∷ history_of scheduler.now.past) }
    requires f_known { f < length scheduler.now.config.weights }
    requires g_known { g < length scheduler.now.config.weights }
    ensures value { result ≡ taken_at scheduler.now.config (history_of scheduler.now.past) entry.act f g }
    ensures low { IfSome result (λ x. x ≤ GREATEST_LENGTH) }
{
    taken_by(entry.act, scheduler.keys(f), scheduler.keys(g))
}

// The greater length, by the keys of their heads: a Take of a request of f takes its head.
fn taken_by(act: Act, first: Option<Keys>, second: Option<Keys>) -> Option<u128>
    ensures { result ≡ taken_by act first second }
{
    match (act, first, second) {
        (Act::Take { request, .. }, Some(first), Some(second)) if request == first.request => {
            Some(first.len.unsigned_abs().max(second.len.unsigned_abs()))
        }
        _ => None,
    }
}
