//! The state that is kept while the entries of a past are read.
ghost use Rattle.std.specs.Prelude.{◌≡◌, ◌<◌, [], IfOk, IfErr, length, pos, ◌≤ℤ◌};
ghost use Rattle.fq_model.specs.declared.config.Config.{Config};
ghost use Rattle.fq_model.specs.History.{History};
ghost use Rattle.fq_model.specs.Time.{last_moment};
ghost use Rattle.fq_model.specs.Keys.{start};
ghost use Rattle.fq_laws.specs.Steps.{Awaits, Follows, Submits};
ghost use Rattle.tag_difference.specs.Pairs.{difference_at};
ghost use Rattle.tag_gap.specs.Reading.{Keeps, KeepsSome, Takes, Withdraws, raised_first};
ghost use Rattle.tag_gap.specs.Reading.{AwaitsEntry, FollowsEntry};
ghost use Rattle.tag_difference.specs.declared.fault.GapFault.TheVariants as faults;

use crate::asked::Asked;
use fq_model::config::{Checked, Policy};
use fq_model::event::{Act, Entry};
use fq_model::limits::GREATEST_VIRTUAL_TIME;
use std::alloc::Global;
use tag_difference::fault::GapFault;
use tag_rules::accounts::Accounts;
use virtual_clock::times::Times;
use vt_fixed::length;

/// The policy, times and accounts that decide the starts of the tenants, and how many requests of each tenant wait.
#[derive(Drop)]
pub struct Reading {
    pub policy: Policy,
    pub times: Times,
    pub accounts: Accounts,
    pub waiting: Vec<u32>,
}

impl Reading {
    /// The state of a history without entries. All its memory is taken here.
    pub fn open(alloc: Global, config: &Checked) -> Result<Reading, GapFault>
        ensures keeps { IfOk result (Keeps config.now []) }
        ensures fault { IfErr result (λ x. x ≡ faults.NoMemory) }
    {
        Ok(Reading {
            policy: config.policy(),
            times: Times::open(alloc, config)?,
            accounts: Accounts::open(alloc, config.tenants())?,
            waiting: vec![in alloc; 0; config.tenants() as usize]?,
        })
    }

    /// Reads the next entry. A Report and a Done of a request that is as declared change no charge.
    pub fn read(&mut self, entry: &Entry, asked: &[Asked])
        requires { AwaitsEntry asked.now entry.now self.old }
        ensures { FollowsEntry asked.now entry.now self.old self.new }
    {
        let moment = entry.moment;
        match entry.act {
            Act::Submit { tenant, .. } => self.submit(moment, tenant),
            Act::Take {
                worker,
                request,
                estimate,
            } => self.take(moment, worker, asked[request as usize].tenant, estimate),
            Act::Report { .. } | Act::Close => self.times.pass(moment),
            Act::Done { request, .. } => {
                let tenant = asked[request as usize].tenant;
                let tag = self.accounts.tag(tenant);
                self.times.end(self.policy, moment, tenant, tag);
            }
            Act::Weight { tenant, weight } => self.times.reweigh(moment, tenant, weight),
            Act::Workers { count } => self.times.staff(moment, count),
            Act::Withdraw { request } => self.withdraw(moment, asked[request as usize].tenant),
        }
    }

    // A request of the tenant comes.
    fn submit(&mut self, moment: u64, tenant: u32)
        requires { Awaits Keeps (Submits moment tenant) self.old }
        ensures { Follows Keeps (Submits moment tenant) self.old self.new }
    {
        self.times.submit(moment, tenant);
        let waiting = self.waiting[tenant as usize];
        raise_first(&mut self.accounts, waiting, tenant, self.times.now());
        self.waiting[tenant as usize] = waiting + 1;
    }

    // A request of the tenant is taken by this worker, at this estimate.
    fn take(&mut self, moment: u64, worker: u32, tenant: u32, estimate: u64)
        requires { Awaits Keeps (Takes moment worker tenant estimate) self.old }
        ensures { Follows Keeps (Takes moment worker tenant estimate) self.old self.new }
    {
        self.times.come_to(moment);
        let weight = self.times.weight(tenant);
        let len = length(estimate, weight);
        let tag = self.accounts.tag(tenant);
        self.times.take(self.policy, worker, tag, len);
        self.accounts.charge(tenant, len);
        let waiting = self.waiting[tenant as usize];
        self.waiting[tenant as usize] = waiting - 1;
    }

    // A request of the tenant that waits is withdrawn.
    fn withdraw(&mut self, moment: u64, tenant: u32)
        requires { Awaits Keeps (Withdraws moment tenant) self.old }
        ensures { Follows Keeps (Withdraws moment tenant) self.old self.new }
    {
        let tag = self.accounts.tag(tenant);
        self.times.end(self.policy, moment, tenant, tag);
        let left = self.waiting[tenant as usize] - 1;
        self.waiting[tenant as usize] = left;
    }

    /// How far the start of tenant f is above that of tenant g, in steps, where a request of each waits.
    pub fn difference(&self, f: u32, g: u32) -> Option<i128>
        requires f { f < length self.now.waiting.items }
        requires g { g < length self.now.waiting.items }
        requires keeps { KeepsSome self.now }
        ensures { (C : Config) (P : History) → Keeps C P self.now → result ≡ difference_at C P f g }
    {
        if self.waiting[f as usize] == 0 || self.waiting[g as usize] == 0 {
            return None;
        }
        Some(self.start(f) - self.start(g))
    }

    // Where the tenant starts, in steps.
    fn start(&self, tenant: u32) -> i128
        requires known { tenant < length self.now.waiting.items }
        requires keeps { KeepsSome self.now }
        ensures { (C : Config) (P : History) → Keeps C P self.now
            → result ≡ pos (start C P (last_moment P) tenant) }
    {
        match self.policy {
            Policy::Msf2q => self.accounts.credit(tenant) + self.times.idle(tenant),
            Policy::Wfq | Policy::Wf2q | Policy::TwoDfq | Policy::TwoDfqPlus => self
                .accounts
                .tag(tenant),
        }
    }
}

// Raises the tag of the tenant to this virtual time, in steps, where none of its requests waits.
fn raise_first(accounts: &mut Accounts, waiting: u32, tenant: u32, v: i128)
    requires known { tenant < length accounts.old.charges }
    requires low { pos 0 ≤ℤ v }
    requires high { v ≤ℤ GREATEST_VIRTUAL_TIME }
    ensures { accounts.new ≡ raised_first waiting accounts.old tenant v }
{
    if waiting == 0 {
        accounts.raise(tenant, v);
    }
}
