//! The gap of two tenants.
ghost use Rattle.std.specs.Prelude.{◌≡◌, ◌<◌, ◌⊎◌, length, IfOk, IfErr, IfSome, Err, None, Some, option_map, ◌≤ℤ◌};
ghost use Rattle.fq_model.specs.History.{history_of};
ghost use Rattle.fq_model.specs.Gap.{tag_gap};
ghost use Rattle.fq_model.specs.Rules.{IsLegal};
ghost use Rattle.gap_laws.specs.Words.{HasDeclaredCosts};
ghost use Rattle.tag_gap.specs.Asked.{AreAsked};
ghost use Rattle.tag_difference.specs.Pairs.{told, tenant_fault};
ghost use Rattle.tag_gap.specs.Gaps.{gap_fault};
ghost use Rattle.tag_difference.specs.declared.fault.GapFault.{GapFault};
ghost use Rattle.tag_difference.specs.declared.fault.GapFault.TheVariants as faults;

use crate::asked::{Asked, asked_in};
use crate::lengths::least_bound;
use crate::reading::Reading;
use crate::strays::not_declared;
use fq_model::config::Checked;
use fq_model::event::Entry;
use std::alloc::Global;
use tag_difference::fault::GapFault;
use tag_difference::found::Found;
use tag_difference::gap::Gap;
use tag_difference::pair::tenant_fault;

/// The greatest difference of the starts of tenants f and g at the prefixes of a past in which both wait, and its
/// bound; none where they never wait both. Fair queuing bounds such a difference of two backlogged flows by the lengths
/// of their longest packets (Golestani, 1994; Goyal, Vin and Cheng, 1996), which are known there: so all requests must
/// be as declared. The faults of the tenants are found before any memory is taken. Takes time in proportion to the
/// past, and memory in proportion to its requests and the tenants.
pub fn tag_gap(
    alloc: Global,
    past: &[Entry],
    config: &Checked,
    f: u32,
    g: u32,
) -> Result<Option<Gap>, GapFault>
    requires legal { IsLegal config.now (history_of past.now) }
    ensures gap { IfOk result (λ gap. (gap_fault config.now (history_of past.now) f g ≡ None)
        × (option_map told gap ≡ tag_gap config.now (history_of past.now) f g)) }
    ensures tenants { (x : GapFault) → tenant_fault config.now f g ≡ Some x → result ≡ Err x }
    ensures bounded { IfOk result (λ gap. IfSome gap (λ x. x.largest ≤ℤ x.bound)) }
    ensures fault { IfErr result (λ x. (x ≡ faults.NoMemory)
        ⊎ (gap_fault config.now (history_of past.now) f g ≡ Some x)) }
{
    if let Some(fault) = tenant_fault(config, f, g) {
        return Err(fault);
    }
    let asked = asked_in(alloc, past)?;
    if let Some(request) = not_declared(past, config, asked.as_slice()) {
        return Err(GapFault::NotDeclared(request));
    }
    gap_of(alloc, past, config, asked.as_slice(), f, g)
}

// The gap of two tenants, where all requests are as declared.
fn gap_of(
    alloc: Global,
    past: &[Entry],
    config: &Checked,
    asked: &[Asked],
    f: u32,
    g: u32,
) -> Result<Option<Gap>, GapFault>
    requires costs { HasDeclaredCosts config.now (history_of past.now) }
    requires asked { AreAsked (history_of past.now) asked.now }
    requires f { f < length config.now.weights }
    requires g { g < length config.now.weights }
    ensures gap { IfOk result (λ gap. option_map told gap ≡ tag_gap config.now (history_of past.now) f g) }
    ensures bounded { IfOk result (λ gap. IfSome gap (λ x. x.largest ≤ℤ x.bound)) }
    ensures fault { IfErr result (λ x. x ≡ faults.NoMemory) }
{
    let mut reading = Reading::open(alloc, config)?;
    let mut found = Found::new();
    for entry in past {
        reading.read(entry, asked);
        found = found.with(reading.difference(f, g));
    }
    Ok(found.gap(least_bound(past, config, f, g)))
}
