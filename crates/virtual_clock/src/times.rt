//! The virtual time of a history, the weights at its end, and for how long each tenant was not active.
ghost use Rattle.std.specs.Prelude.{◌<◌, ◌≤◌, ◌≡◌, ◌≢◌, [], pos, ◌≤ℤ◌, length, slice_index, All, IfOk, IfNone, IfSome};
ghost use Rattle.fq_model.specs.declared.config.Policy.TheVariants.{TwoDfqPlus};
ghost use Rattle.fq_model.specs.Limits.{IsWeight};
ghost use Rattle.fq_laws.specs.Steps.{Awaits, Follows, Submits, Passes, Reweighs, Staffs};
ghost use Rattle.virtual_clock.specs.Idles.{idle_of};
ghost use Rattle.virtual_clock.specs.Lingering.{IsCounted, counts, Settles, NoneIsReached, IsReachedAt, HasRoomFor, Retires, rejoined};
ghost use Rattle.virtual_clock.specs.Lingering.{submitted, Ended, reweighed};
ghost use Rattle.virtual_clock.specs.Histories.{TimesAre, ComesTo, AwaitsTake, FollowsTake, AwaitsEnd, FollowsEnd};
ghost use Rattle.virtual_clock.specs.Histories.{IsTimeOf, IsLaterTimeOf, IsIdleTimeOf, IsWeightOf, IsPoolOf};

use crate::clock::Clock128;
use crate::idles::Idles;
use crate::weights::WeightsNow;
use fq_model::config::{Checked, Policy};
use fq_model::limits::{GREATEST_MOMENT, GREATEST_VIRTUAL_TIME, GREATEST_WEIGHT, MOST_WORKERS};
use std::alloc::{AllocError, Global};
use vt_fixed::part;
use winner_tree::{Key, Tree};

/// Virtual time at the last entry of a history, or at a later moment, with the number of workers and the weights there,
/// by which it goes on, and the idle times at that time.
#[derive(Drop)]
pub struct Times {
    clock: Clock128,
    weights: WeightsNow,
    idles: Idles,
    // By tenant: where it starts, if it lingers. That is under `2dfq+` alone, while none of its requests is open and it
    // starts above virtual time: the fluid serves it still.
    lingering: Tree,
}

impl Times {
    /// The times of a history without entries. All their memory is taken here.
    pub fn open(alloc: Global, config: &Checked) -> Result<Times, AllocError>
        ensures { IfOk result (TimesAre config.now []) }
    {
        Ok(Times {
            clock: Clock128::new(config.policy(), config.workers()),
            weights: WeightsNow::open(alloc, config)?,
            idles: Idles::open(alloc, config.tenants())?,
            lingering: Tree::open(alloc, config.tenants())?,
        })
    }

    /// Goes on to the moment of a Take, in microseconds. Once the request is chosen, `take` has to be called.
    pub fn come_to(&mut self, moment: u64)
        requires later { self.old.clock.moment ≤ moment }
        requires in_range { moment ≤ GREATEST_MOMENT }
        ensures { ComesTo moment self.old self.new }
    {
        self.clock.to(moment);
    }

    /// At the moment that was come to, the worker takes a request with this start and this length, both in steps.
    pub fn take(&mut self, policy: Policy, worker: u32, start: i128, len: i128)
        requires { policy ≡ TwoDfqPlus → AwaitsTake worker start len self.old }
        ensures paced { policy ≡ TwoDfqPlus → FollowsTake worker start len self.old self.new }
        ensures by_clock { policy ≢ TwoDfqPlus → self.new ≡ self.old }
    {
        match policy {
            Policy::TwoDfqPlus => self.lift(worker, start, len),
            Policy::Wfq | Policy::Wf2q | Policy::Msf2q | Policy::TwoDfq => {}
        }
    }

    // Virtual time is no less than the request's eligible key from here on, and the cap no less than its finish.
    fn lift(&mut self, worker: u32, start: i128, len: i128)
        requires { AwaitsTake worker start len self.old }
        ensures { FollowsTake worker start len self.old self.new }
    {
        let key = start - part(len, worker, self.clock.workers());
        self.clock.lift(key, start + len);
        self.settle();
    }

    /// A Report or a Close comes at this moment, in microseconds.
    pub fn pass(&mut self, moment: u64)
        requires { Awaits TimesAre (Passes moment) self.old }
        ensures { Follows TimesAre (Passes moment) self.old self.new }
    {
        self.clock.to(moment);
        self.settle();
    }

    /// A Submit to this tenant comes at this moment, in microseconds.
    pub fn submit(&mut self, moment: u64, tenant: u32)
        requires { Awaits TimesAre (Submits moment tenant) self.old }
        ensures { Follows TimesAre (Submits moment tenant) self.old self.new }
    {
        self.open_request(moment, tenant);
        self.settle();
    }

    // The tenant has one more open request from this moment on.
    fn open_request(&mut self, moment: u64, tenant: u32)
        requires { Awaits TimesAre (Submits moment tenant) self.old }
        ensures { self.new ≡ submitted moment tenant self.old }
    {
        self.clock.to(moment); // at the weights before it
        if self.idles.open_one(tenant, self.clock.now()) {
            self.rejoin(tenant);
        }
    }

    // The tenant has become active. Where it lingered until now, its weight counts already.
    fn rejoin(&mut self, tenant: u32)
        requires kept { tenant < length self.old.lingering }
        requires weighed { tenant < length self.old.weights }
        requires room { HasRoomFor tenant self.old }
        ensures { self.new ≡ rejoined tenant self.old }
    {
        if self.lingering.has_key(tenant) {
            self.lingering.set(tenant, None);
        } else {
            self.clock.enter(self.weights.of(tenant));
        }
    }

    /// A Done or a Withdraw of a request of this tenant comes at this moment, in microseconds. The tenant starts at
    /// `start` from then on, in steps.
    pub fn end(&mut self, policy: Policy, moment: u64, tenant: u32, start: i128)
        requires { AwaitsEnd policy moment tenant start self.old }
        ensures { FollowsEnd policy moment tenant start self.old self.new }
    {
        self.close_request(policy, moment, tenant, start);
        self.settle();
    }

    // The tenant has one open request less from this moment on. It starts at `start` then.
    fn close_request(&mut self, policy: Policy, moment: u64, tenant: u32, start: i128)
        requires { AwaitsEnd policy moment tenant start self.old }
        ensures { Ended policy moment tenant start self.old self.new }
    {
        self.clock.to(moment); // at the weights with this tenant's
        if self.idles.close_one(tenant, self.clock.now()) {
            self.retire(policy, tenant, start);
        }
    }

    // The tenant is active no more. It lingers if it starts above virtual time.
    fn retire(&mut self, policy: Policy, tenant: u32, start: i128)
        requires kept { tenant < length self.old.lingering }
        requires weighed { tenant < length self.old.weights }
        requires entered { slice_index self.old.weights tenant ≤ self.old.clock.weights }
        ensures { Retires policy tenant start self.old self.new }
    {
        if policy == Policy::TwoDfqPlus && start > self.clock.now() {
            let key = Key {
                a: start,
                b: 0,
                c: 0,
            };
            self.lingering.set(tenant, Some(key));
        } else {
            self.clock.leave(self.weights.of(tenant));
        }
    }

    /// A Weight of this tenant comes at this moment, in microseconds.
    pub fn reweigh(&mut self, moment: u64, tenant: u32, weight: u32)
        requires { Awaits TimesAre (Reweighs moment tenant weight) self.old }
        ensures { Follows TimesAre (Reweighs moment tenant weight) self.old self.new }
    {
        self.trade(moment, tenant, weight);
        self.settle();
    }

    // The tenant has this weight from this moment on. Where it counts, it does so in place of the one before.
    fn trade(&mut self, moment: u64, tenant: u32, weight: u32)
        requires { Awaits TimesAre (Reweighs moment tenant weight) self.old }
        ensures { self.new ≡ reweighed moment tenant weight self.old }
    {
        self.clock.to(moment); // at the weight before it
        if self.counts(tenant) {
            self.clock.leave(self.weights.of(tenant));
            self.clock.enter(weight);
        }
        self.weights.set(tenant, weight);
    }

    // Whether virtual time goes on over the weight of the tenant, too.
    fn counts(&self, tenant: u32) -> bool
        requires kept { tenant < length self.now.idles }
        requires keyed { tenant < length self.now.lingering }
        ensures { result ≡ counts self.now tenant }
    {
        self.idles.is_active(tenant) || self.lingering.has_key(tenant)
    }

    /// A Workers comes at this moment, in microseconds.
    pub fn staff(&mut self, moment: u64, count: u32)
        requires { Awaits TimesAre (Staffs moment count) self.old }
        ensures { Follows TimesAre (Staffs moment count) self.old self.new }
    {
        self.clock.to(moment); // at the number before it
        self.clock.staff(count);
        self.settle();
    }

    // The tenants at whose starts virtual time has come linger no more.
    fn settle(&mut self)
        requires { IsCounted self.old }
        ensures { Settles self.old self.new }
    {
        'reached: while let Some(tenant) = self.reached() {
            self.lingering.set(tenant, None);
            self.clock.leave(self.weights.of(tenant));
        }
    }

    // The first of the tenants that linger, where virtual time has come to its start.
    fn reached(&self) -> Option<u32>
        ensures some { IfSome result (IsReachedAt self.now) }
        ensures none { IfNone result (NoneIsReached self.now) }
    {
        let (tenant, key) = self.lingering.first()?;
        if key.a <= self.clock.now() {
            Some(tenant)
        } else {
            None
        }
    }

    /// Virtual time at the moment that was come to, in steps.
    pub fn now(&self) -> i128
        ensures value { IsTimeOf self.now result }
        ensures low { pos 0 ≤ℤ result }
        ensures high { result ≤ℤ GREATEST_VIRTUAL_TIME }
    {
        self.clock.now()
    }

    /// Virtual time at a moment that is not before the last entry, in microseconds, where no entry comes before it; in
    /// steps.
    pub fn at(&self, moment: u64) -> i128
        requires later { self.now.clock.moment ≤ moment }
        requires in_range { moment ≤ GREATEST_MOMENT }
        ensures value { IsLaterTimeOf self.now moment result }
        ensures low { pos 0 ≤ℤ result }
        ensures high { result ≤ℤ GREATEST_VIRTUAL_TIME }
    {
        self.clock.at(moment)
    }

    /// The number of workers at the last entry: 1 to 64.
    pub fn workers(&self) -> u32
        ensures value { IsPoolOf self.now result }
        ensures low { 1 ≤ result }
        ensures high { result ≤ MOST_WORKERS }
    {
        self.clock.workers()
    }

    /// The weight of a tenant at the last entry: 1 to 1,000.
    pub fn weight(&self, tenant: u32) -> u32
        requires { tenant < length self.now.weights }
        ensures value { IsWeightOf self.now tenant result }
        ensures low { 1 ≤ result }
        ensures high { result ≤ GREATEST_WEIGHT }
    {
        self.weights.of(tenant)
    }

    /// By tenant, its weight at the last entry.
    pub fn weights(&self) -> &[u32]
        ensures value { result.now ≡ self.now.weights }
        ensures range { All IsWeight result.now }
    {
        self.weights.as_slice()
    }

    /// The virtual time up to the last entry that passed while the tenant was not active, in steps.
    pub fn idle(&self, tenant: u32) -> i128
        requires tenant { tenant < length self.now.idles }
        requires earlier { (idle_of self.now.idles tenant).since ≤ℤ self.now.clock.time }
        ensures value { IsIdleTimeOf self.now tenant result }
        ensures low { pos 0 ≤ℤ result }
        ensures high { result ≤ℤ GREATEST_VIRTUAL_TIME }
    {
        self.idles.total(tenant, self.clock.now())
    }
}
