//! The greatest length of a request so far.
ghost use Rattle.std.specs.Prelude.{◌+◌, ◌-◌, ◌*◌, ◌/◌, ◌≡◌, ◌<◌, ◌≤◌, [], IfOk, length, max, vec_capacity, All};
ghost use Rattle.vt_fixed.specs.Rounding.{part_of};
ghost use Rattle.fq_model.specs.Ever.{under_plus, ever_bound};
ghost use Rattle.fq_model.specs.History.{history_of};
ghost use Rattle.fq_model.specs.Lead.{head_length};
ghost use Rattle.fq_model.specs.Limits.{InLimits};
ghost use Rattle.fq_model.specs.Rules.{IsLegal};
ghost use Rattle.tag_lead.specs.Greatest.{IsAmong, tenant_of_act, tenants_with, charge_length, length_by};
ghost use Rattle.tag_lead.specs.Greatest.{longest_among, length_at, unread_at, unread_with};

use crate::limits::{GREATEST_BOUND, GREATEST_LENGTH, GREATEST_SUM, MOST_COUNTED};
use crate::spans::MeasuredLength;
use fq_model::config::{Checked, Policy};
use fq_model::event::Act;
use fq_model::limits::MOST_WORKERS;
use sched_state::Scheduler;
use std::alloc::{AllocError, Global};
use tag_rules::chooser::Chooser;
use tag_rules::head_keys::Keys;

/// The greatest length of a request at the prefixes so far, by its charge or as a head just before a Take, in steps;
/// the tenant of each request, by its number; and the tenants whose heads were not read since an entry may have changed
/// them. An entry changes the lengths of one tenant's requests at most, so a Take reads few heads.
#[derive(Drop)]
pub struct Greatest {
    pub length: u128,
    pub tenants: Vec<u32>,
    pub unread: Vec<u32>,
}

impl Greatest {
    /// Of no prefix yet: one step. All its memory, for this number of entries, is taken here.
    pub fn open(alloc: Global, entries: usize) -> Result<Greatest, AllocError>
        ensures length { IfOk result (λ greatest. greatest.length ≡ 1) }
        ensures tenants { IfOk result (λ greatest. greatest.tenants.items ≡ []) }
        ensures unread { IfOk result (λ greatest. greatest.unread.items ≡ []) }
        ensures room { IfOk result (λ greatest. entries ≤ vec_capacity greatest.tenants) }
        ensures unread_room { IfOk result (λ greatest. entries ≤ vec_capacity greatest.unread) }
    {
        Ok(Greatest {
            length: 1,
            tenants: Vec::with_capacity(alloc, entries)?,
            unread: Vec::with_capacity(alloc, entries)?,
        })
    }

    // The tenant whose request or weight the act is about, if there is one.
    fn tenant(&self, act: Act) -> Option<u32>
        requires { IsAmong (length self.now.tenants.items) act }
        ensures { result ≡ tenant_of_act self.now.tenants.items act }
    {
        match act {
            Act::Submit { tenant, .. } | Act::Weight { tenant, .. } => Some(tenant),
            Act::Take { request, .. } | Act::Report { request, .. } => Some(
                self.tenants[request as usize],
            ),
            Act::Done { request, .. } | Act::Withdraw { request } => Some(
                self.tenants[request as usize],
            ),
            Act::Close | Act::Workers { .. } => None,
        }
    }

    /// With the heads that a Take finds, where the act is one, before it.
    pub fn read_heads<X: Chooser>(&mut self, scheduler: &Scheduler<u64, X>, act: Act)
        requires limits { InLimits scheduler.now.config }
        requires legal { IsLegal scheduler.now.config (history_of scheduler.now.past) }
        requires known { All (λ t. t < length scheduler.now.config.weights) self.old.unread.items }
        ensures length { self.new.length ≡ length_at scheduler.now.config (history_of scheduler.now.past) act
            self.old.unread.items self.old.length }
        ensures unread { self.new.unread.items ≡ unread_at act self.old.unread.items }
        ensures tenants { self.new.tenants.items ≡ self.old.tenants.items }
        ensures room { vec_capacity self.new.tenants ≡ vec_capacity self.old.tenants }
        ensures unread_room { vec_capacity self.new.unread ≡ vec_capacity self.old.unread }
    {
        if let Act::Take { .. } = act {
            self.length = self
                .length
                .max(longest_among(scheduler, self.unread.as_slice()));
            self.unread.clear();
        }
    }

    /// With the length that an act measures, after it.
    pub fn note(&mut self, act: Act, measured: Option<MeasuredLength>)
        requires among { IsAmong (length self.old.tenants.items) act }
        requires room { length self.old.tenants.items < vec_capacity self.old.tenants }
        requires unread_room { length self.old.unread.items < vec_capacity self.old.unread }
        ensures length { self.new.length ≡ max self.old.length (charge_length measured) }
        ensures tenants { self.new.tenants.items ≡ tenants_with self.old.tenants.items act }
        ensures unread { self.new.unread.items
            ≡ unread_with self.old.unread.items (tenant_of_act self.old.tenants.items act) }
        ensures room { vec_capacity self.new.tenants ≡ vec_capacity self.old.tenants }
        ensures unread_room { vec_capacity self.new.unread ≡ vec_capacity self.old.unread }
    {
        self.length = self.length.max(charge_length(measured));
        if let Some(tenant) = self.tenant(act) {
            self.unread.push_reserved(tenant);
        }
        if let Act::Submit { tenant, .. } = act {
            self.tenants.push_reserved(tenant);
        }
    }
}

fn charge_length(measured: Option<MeasuredLength>) -> u128
    ensures { result ≡ charge_length measured }
{
    match measured {
        Some(measured) => measured.len as u128,
        None => 0,
    }
}

// The greatest length of a head of these tenants, in steps, or 0.
fn longest_among<X: Chooser>(scheduler: &Scheduler<u64, X>, tenants: &[u32]) -> u128
    requires limits { InLimits scheduler.now.config }
    requires legal { IsLegal scheduler.now.config (history_of scheduler.now.past) }
    requires known { All (λ t. t < length scheduler.now.config.weights) tenants.now }
    ensures { result ≡ longest_among scheduler.now.config (history_of scheduler.now.past) tenants.now }
{
    let mut longest = 0;
    for tenant in tenants {
        longest = longer(longest, head_length(scheduler, *tenant));
    }
    longest
}

fn longer(longest: u128, length: u128) -> u128
    ensures { result ≡ max longest length }
{
    longest.max(length)
}

// The length of the head of a tenant, in steps, or 0.
fn head_length<X: Chooser>(scheduler: &Scheduler<u64, X>, tenant: u32) -> u128
    requires limits { InLimits scheduler.now.config }
    requires legal { IsLegal scheduler.now.config (history_of scheduler.now.past) }
    requires known { tenant < length scheduler.now.config.weights }
    ensures { result ≡ head_length scheduler.now.config (history_of scheduler.now.past) tenant }
{
    length_by(scheduler.keys(tenant))
}

fn length_by(keys: Option<Keys>) -> u128
    ensures { result ≡ length_by keys }
{
    match keys {
        Some(keys) => keys.len.unsigned_abs(),
        None => 0,
    }
}

/// Under 2dfq+, the bound of each lead over a tenant that waits, in steps, where no request is longer.
pub fn ever_bound(config: &Checked, longest: u128) -> Option<i128>
    requires { longest ≤ GREATEST_LENGTH }
    ensures { result ≡ under_plus config.now.policy (ever_bound config.now longest) }
{
    match config.policy() {
        Policy::TwoDfqPlus => Some(most_lead(config.workers(), longest) as i128 - 1),
        _ => None,
    }
}

// A request for each worker, for every second one, and one more, and the greatest part of a length.
fn most_lead(workers: u32, longest: u128) -> u128
    requires some { 1 ≤ workers }
    requires few { workers ≤ MOST_WORKERS }
    requires short { longest ≤ GREATEST_LENGTH }
    ensures value { result ≡ (workers + workers / 2 + 1) * longest + part_of longest (workers - 1) workers }
    ensures low { result ≤ GREATEST_BOUND }
{
    times(workers + workers / 2 + 1, longest) + times(workers - 1, longest) / workers as u128
}

fn times(count: u32, longest: u128) -> u128
    requires few { count ≤ MOST_COUNTED }
    requires short { longest ≤ GREATEST_LENGTH }
    ensures value { result ≡ count * longest }
    ensures low { result ≤ GREATEST_SUM }
{
    count as u128 * longest
}
