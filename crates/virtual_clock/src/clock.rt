//! The clock of virtual time.
ghost use Rattle.std.specs.Prelude.{◌≡◌, ◌+◌, ◌≤◌, pos, ◌≤ℤ◌};
ghost use Rattle.virtual_clock.specs.Clock.{at_start, moved_to, entered, left, staffed, lifted};

use fq_model::config::Policy;
use fq_model::limits::{
    GREATEST_ACTIVE_WEIGHT, GREATEST_MOMENT, GREATEST_VIRTUAL_TIME, GREATEST_WEIGHT, MOST_WORKERS,
};
use std::marker::Model;
use vt_fixed::advance;

/// Virtual time along a history, in steps. It rises at the rate of generalized processor sharing (Parekh and
/// Gallager, 1993): the number of workers over the sum of the weights that count, and it stands while none counts. The
/// weight of an active tenant counts, and under `2dfq+` that of a tenant that lingers. Under `2dfq+` virtual time does
/// not pass a cap, and may be lifted. Each piece between two moments is rounded down by itself, so `to` belongs at each
/// entry and nowhere else.
#[derive(Drop)]
pub struct Clock128 {
    workers: u32,
    // in microseconds
    moment: u64,
    weights: u64,
    time: i128,
    // the number that virtual time may not pass; where the policy has no cap, a number that it does not come to
    cap: i128,
}

impl Model for Clock128 {
    ghost use Rattle.virtual_clock.specs.Clock.{ClockView, IsInRange};

    ghost Value = { ClockView };

    ghost view = { λ c. record {
      workers = c.workers;
      moment = c.moment;
      weights = c.weights;
      time = c.time;
      cap = c.cap;
    } };

    ghost invariant = { λ c. IsInRange (record {
      workers = c.workers;
      moment = c.moment;
      weights = c.weights;
      time = c.time;
      cap = c.cap;
    }) };
}

impl Clock128 {
    /// A clock at moment 0 and virtual time 0, when no weight counts. Under `2dfq+` its cap is 0 until a request is
    /// taken.
    pub fn new(policy: Policy, workers: u32) -> Clock128
        requires workers_positive { 1 ≤ workers }
        requires workers_in_range { workers ≤ MOST_WORKERS }
        ensures { result ≡ at_start policy workers }
    {
        let cap = match policy {
            Policy::TwoDfqPlus => 0,
            Policy::Wfq | Policy::Wf2q | Policy::Msf2q | Policy::TwoDfq => GREATEST_VIRTUAL_TIME,
        };
        Clock128 {
            workers,
            moment: 0,
            weights: 0,
            time: 0,
            cap,
        }
    }

    /// Goes on to a moment, in microseconds, at the rate of the weights so far, and stops at the cap.
    pub fn to(&mut self, moment: u64)
        requires later { self.old.moment ≤ moment }
        requires in_range { moment ≤ GREATEST_MOMENT }
        ensures { self.new ≡ moved_to self.old moment }
    {
        self.time = self.at(moment);
        self.moment = moment;
    }

    /// Virtual time at a later moment, in microseconds, where no entry comes before it; in steps.
    pub fn at(&self, moment: u64) -> i128
        requires later { self.now.moment ≤ moment }
        requires in_range { moment ≤ GREATEST_MOMENT }
        ensures value { result ≡ (moved_to self.now moment).time }
        ensures low { pos 0 ≤ℤ result }
        ensures high { result ≤ℤ GREATEST_VIRTUAL_TIME }
    {
        let moved = self.time + advance(moment - self.moment, self.workers, self.weights);
        moved.min(self.cap)
    }

    /// The weight of one tenant more counts from now on.
    pub fn enter(&mut self, weight: u32)
        requires weight_positive { 1 ≤ weight }
        requires weight_in_range { weight ≤ GREATEST_WEIGHT }
        requires room { self.old.weights + weight ≤ GREATEST_ACTIVE_WEIGHT }
        ensures { self.new ≡ entered self.old weight }
    {
        self.weights += weight as u64;
    }

    /// The weight of one tenant counts no more.
    pub fn leave(&mut self, weight: u32)
        requires weight_positive { 1 ≤ weight }
        requires weight_in_range { weight ≤ GREATEST_WEIGHT }
        requires entered { weight ≤ self.old.weights }
        ensures { self.new ≡ left self.old weight }
    {
        self.weights -= weight as u64;
    }

    /// There are `workers` workers from this moment on.
    pub fn staff(&mut self, workers: u32)
        requires workers_positive { 1 ≤ workers }
        requires workers_in_range { workers ≤ MOST_WORKERS }
        ensures { self.new ≡ staffed self.old workers }
    {
        self.workers = workers;
    }

    /// A request of this eligible key and this finish, both in steps, is taken: virtual time is no less than the key
    /// from here on, and the cap no less than the finish.
    pub fn lift(&mut self, key: i128, finish: i128)
        requires ordered { key ≤ℤ finish }
        requires in_range { finish ≤ℤ GREATEST_VIRTUAL_TIME }
        ensures { self.new ≡ lifted self.old key finish }
    {
        self.time = self.time.max(key);
        self.cap = self.cap.max(finish);
    }

    /// The number of workers.
    pub fn workers(&self) -> u32
        ensures value { result ≡ self.now.workers }
        ensures low { 1 ≤ result }
        ensures high { result ≤ MOST_WORKERS }
    {
        self.workers
    }

    /// Virtual time at the moment that the clock has come to, in steps.
    pub fn now(&self) -> i128
        ensures value { result ≡ self.now.time }
        ensures low { pos 0 ≤ℤ result }
        ensures high { result ≤ℤ GREATEST_VIRTUAL_TIME }
    {
        self.time
    }
}
