//! The virtual time that passed while a tenant was not active.
ghost use Rattle.std.specs.Prelude.{◌≡◌, ◌<◌, ◌≤◌, not, pos, ◌≤ℤ◌, length, replicate, slice_set, IfOk};
ghost use Rattle.virtual_clock.specs.Idles.{asleep_at_first, idle_of, is_asleep, is_at_last, woken, put_to_sleep, opened, closed, total_at};

use fq_model::limits::GREATEST_VIRTUAL_TIME;
use std::alloc::{AllocError, Global};
use std::marker::Model;

/// The idle time of one tenant.
#[derive(Clone, Copy, Debug, PartialEq, Eq)]
pub struct Idle {
    /// The virtual time that passed while the tenant was asleep, up to `since`, in steps.
    pub whole: i128,
    /// The virtual time at which the tenant fell asleep or woke last, in steps.
    pub since: i128,
    /// How many of its requests wait or run. It is asleep, which is not active, while that is 0.
    pub undone: u32,
}

/// The idle time of each tenant. Contracts see them by number.
#[derive(Drop)]
pub struct Idles {
    tenants: Vec<Idle>,
}

impl Model for Idles {
    ghost use Rattle.std.specs.Prelude.{List, All};
    ghost use Rattle.virtual_clock.specs.declared.idles.Idle.{Idle};
    ghost use Rattle.virtual_clock.specs.Idles.{IsIdle};

    ghost Value = { List Idle };

    ghost view = { λ i. i.tenants.items };

    ghost invariant = { λ i. All IsIdle i.tenants.items };
}

impl Idles {
    /// All tenants are asleep since virtual time 0. All memory is taken here.
    pub fn open(alloc: Global, tenants: u32) -> Result<Idles, AllocError>
        ensures { IfOk result (λ i. i ≡ replicate tenants asleep_at_first) }
    {
        let asleep = Idle {
            whole: 0,
            since: 0,
            undone: 0,
        };
        let tenants = vec![in alloc; asleep; tenants as usize]?;
        Ok(Idles { tenants })
    }

    /// Whether a tenant has an open request.
    pub fn is_active(&self, tenant: u32) -> bool
        requires { tenant < length self.now }
        ensures { result ≡ not (is_asleep (idle_of self.now tenant)) }
    {
        self.tenants[tenant as usize].undone != 0
    }

    /// A tenant that is asleep becomes active by one request, at this virtual time in steps.
    pub fn wake(&mut self, tenant: u32, v: i128)
        requires tenant { tenant < length self.old }
        requires asleep { (idle_of self.old tenant).undone ≡ 0 }
        requires later { (idle_of self.old tenant).since ≤ℤ v }
        requires in_range { v ≤ℤ GREATEST_VIRTUAL_TIME }
        ensures { self.new ≡ slice_set self.old tenant (woken (idle_of self.old tenant) v) }
    {
        let idle = self.tenants[tenant as usize];
        self.tenants[tenant as usize] = Idle {
            whole: idle.whole + (v - idle.since),
            since: v,
            undone: 1,
        };
    }

    /// A tenant that is awake is active no more, from this virtual time on, in steps.
    pub fn sleep(&mut self, tenant: u32, v: i128)
        requires tenant { tenant < length self.old }
        requires awake { 1 ≤ (idle_of self.old tenant).undone }
        requires later { (idle_of self.old tenant).since ≤ℤ v }
        requires in_range { v ≤ℤ GREATEST_VIRTUAL_TIME }
        ensures { self.new ≡ slice_set self.old tenant (put_to_sleep (idle_of self.old tenant) v) }
    {
        let idle = self.tenants[tenant as usize];
        self.tenants[tenant as usize] = Idle {
            whole: idle.whole,
            since: v,
            undone: 0,
        };
    }

    /// One more request of the tenant is open, at this virtual time in steps. True where the tenant was asleep: it
    /// wakes then.
    pub fn open_one(&mut self, tenant: u32, v: i128) -> bool
        requires tenant { tenant < length self.old }
        requires few { (idle_of self.old tenant).undone < 4294967295 }
        requires later { (idle_of self.old tenant).since ≤ℤ v }
        requires in_range { v ≤ℤ GREATEST_VIRTUAL_TIME }
        ensures counted { self.new ≡ slice_set self.old tenant (opened (idle_of self.old tenant) v) }
        ensures woke { result ≡ is_asleep (idle_of self.old tenant) }
    {
        let is_first = self.tenants[tenant as usize].undone == 0;
        if is_first {
            self.wake(tenant, v);
        } else {
            self.tenants[tenant as usize].undone += 1;
        }
        is_first
    }

    /// One request of the tenant is open no more, at this virtual time in steps. True where it was the last: the tenant
    /// falls asleep then.
    pub fn close_one(&mut self, tenant: u32, v: i128) -> bool
        requires tenant { tenant < length self.old }
        requires some { 1 ≤ (idle_of self.old tenant).undone }
        requires later { (idle_of self.old tenant).since ≤ℤ v }
        requires in_range { v ≤ℤ GREATEST_VIRTUAL_TIME }
        ensures counted { self.new ≡ slice_set self.old tenant (closed (idle_of self.old tenant) v) }
        ensures fell_asleep { result ≡ is_at_last (idle_of self.old tenant) }
    {
        let is_last = self.tenants[tenant as usize].undone == 1;
        if is_last {
            self.sleep(tenant, v);
        } else {
            self.tenants[tenant as usize].undone -= 1;
        }
        is_last
    }

    /// The virtual time that passed while the tenant was asleep, up to this virtual time, in steps.
    pub fn total(&self, tenant: u32, v: i128) -> i128
        requires tenant { tenant < length self.now }
        requires later { (idle_of self.now tenant).since ≤ℤ v }
        requires in_range { v ≤ℤ GREATEST_VIRTUAL_TIME }
        ensures value { result ≡ total_at (idle_of self.now tenant) v }
        ensures low { pos 0 ≤ℤ result }
        ensures high { result ≤ℤ v }
    {
        let idle = self.tenants[tenant as usize];
        if idle.undone == 0 {
            idle.whole + (v - idle.since)
        } else {
            idle.whole
        }
    }
}
