//! The credit of workers for staying free.
ghost use Rattle.std.specs.Prelude.{◌≡◌, ◌<◌, ◌≤◌, ◌+◌, ◌-◌, ◌*◌, ◌/◌, min, max};
ghost use Rattle.worker_reserve.specs.Credit.{after_passed, budget_of, with_workers};
ghost use Rattle.worker_reserve.specs.Rule.{IsInRange, pause_of};

use crate::rule::Budget;
use std::marker::Model;

/// What passed up to a moment since the last one, in microseconds: how many requests ran, how many workers declined,
/// and when these were to be asked again.
#[derive(Clone, Copy, Debug)]
pub struct Passed {
    pub moment: u64,
    pub running: u32,
    pub declining: u32,
    pub asked_again: u64,
}

/// The credit: a token bucket that holds a second of each worker's idle time. Contracts see how much of it is used.
#[derive(Drop)]
pub struct Credit {
    idle_ppm: u32,
    workers: u32,
    used: u128,
    moment: u64,
}

impl Model for Credit {
    ghost use Rattle.worker_reserve.specs.Credit.{CreditView, IsKept};

    ghost Value = { CreditView };

    ghost view = { λ c. record { idle_ppm = c.idle_ppm; workers = c.workers; used = c.used; moment = c.moment } };

    ghost invariant = { λ c. IsKept (record {
      idle_ppm = c.idle_ppm;
      workers = c.workers;
      used = c.used;
      moment = c.moment;
    }) };
}

impl Credit {
    /// A full credit, for up to 4,096 workers, of which up to this part of all time, in millionths, is spent.
    pub fn open(idle_ppm: u32, workers: u32) -> Credit
        requires idle { idle_ppm ≤ 1000000 }
        requires workers { workers ≤ 4096 }
        ensures { result ≡ record { idle_ppm = idle_ppm; workers = workers; used = 0; moment = 0 } }
    {
        Credit {
            idle_ppm,
            workers,
            used: 0,
            moment: 0,
        }
    }

    /// Time has passed, up to a moment of at most 10^15.
    pub fn passed(&mut self, passed: Passed)
        requires in_order { self.old.moment ≤ passed.moment }
        requires moment { passed.moment ≤ 1000000000000000 }
        requires running { passed.running ≤ 4096 }
        requires declining { passed.declining ≤ 4096 }
        ensures { self.new ≡ after_passed self.old passed }
    {
        let since = self.moment;
        let last = passed.moment.min(passed.asked_again.saturating_add(1000));
        let ran = times(passed.running, passed.moment - since);
        let earned = scaled(self.idle_ppm, ran);
        let declined = times(passed.declining, last.saturating_sub(since));
        let spent = scaled(1000000, declined);
        self.used = self.used.saturating_sub(earned) + spent;
        self.moment = passed.moment;
    }

    /// The number of workers is this from now on.
    pub fn set_workers(&mut self, workers: u32)
        requires { workers ≤ 4096 }
        ensures { self.new ≡ with_workers self.old workers }
    {
        let before = self.cap_of(self.workers);
        let now = self.cap_of(workers);
        self.used = (now + self.used).saturating_sub(before);
        self.workers = workers;
    }

    /// What the rule reads.
    pub fn budget(&self) -> Budget
        ensures budget { result ≡ budget_of self.now }
        ensures in_range { IsInRange result }
    {
        let cap = self.cap_of(self.workers);
        Budget {
            idle_ppm: self.idle_ppm,
            workers: self.workers,
            credit: cap.saturating_sub(self.used) as u64,
        }
    }

    // The cap with this number of workers.
    fn cap_of(&self, workers: u32) -> u128
        requires { workers ≤ 4096 }
        ensures cap { result ≡ self.now.idle_ppm * 1000000 * workers }
        ensures few { result ≤ 4096000000000000 }
    {
        self.idle_ppm as u128 * 1000000 * workers as u128
    }
}

impl Budget {
    /// How many microseconds later this number of workers, which decline, are asked again at the latest.
    pub fn pause(&self, declining: u32) -> u64
        requires { 0 < declining }
        ensures { result ≡ pause_of self.now declining }
    {
        (self.credit / 1000000 / declining as u64 + 1)
            .min(1000)
            .max(61)
    }
}

// The time of this number of workers, each this long.
fn times(workers: u32, time: u64) -> u128
    requires workers { workers ≤ 4096 }
    requires time { time ≤ 1000000000000000 }
    ensures value { result ≡ workers * time }
    ensures few { result ≤ 4096 * time }
{
    workers as u128 * time as u128
}

fn scaled(part: u32, time: u128) -> u128
    requires part { part ≤ 1000000 }
    requires time { time ≤ 4096000000000000000 }
    ensures value { result ≡ part * time }
    ensures few { result ≤ 1000000 * time }
{
    part as u128 * time
}
