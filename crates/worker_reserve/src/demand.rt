//! The demand of small requests, from the ends of requests.
ghost use Rattle.std.specs.Prelude.{◌≡◌, ◌<◌, ◌≤◌, ◌+◌, ◌*◌, ◌++◌, ◌∷◌, [], List, ℕ, slice_index};
ghost use Rattle.worker_reserve.specs.Demand.{window_of, demand, lowered, IsPast};
ghost use Rattle.worker_reserve.specs.Kept.{Keeps, HasWindows, weighed};

use ghost_list::GhostList;
use std::marker::Model;

/// The length of a window, in microseconds.
const WINDOW: u64 = 131072;

/// The demand of 4,096 workers.
const MOST_DEMAND: u128 = 70368744177664;

/// The end of a request.
#[derive(Clone, Copy, Debug, PartialEq, Eq)]
pub struct Ended {
    /// The moment, in microseconds.
    pub moment: u64,
    /// How long it ran, in microseconds.
    pub ran: u64,
    /// The class of its size.
    pub class: u32,
}

/// The demand of requests, by class of their size. Contracts see all ends, in order of time.
#[derive(Drop)]
pub struct Demand {
    sums: Sums,
    past: GhostList<Ended>,
}

impl Model for Demand {
    ghost use Rattle.std.specs.Prelude.{List};
    ghost use Rattle.worker_reserve.specs.declared.demand.Ended.{Ended};
    ghost use Rattle.worker_reserve.specs.Kept.{Keeps};

    ghost Value = { List Ended };

    ghost view = { λ d. d.past.items };

    ghost invariant = { λ d. Keeps d.past.items d.sums };
}

impl Demand {
    /// The demand before any request has ended.
    pub fn new() -> Demand
        ensures { result ≡ [] }
    {
        Demand {
            sums: Sums {
                latest: 0,
                current: zeros(),
                previous: zeros(),
            },
            past: GhostList::new(),
        }
    }

    /// A request of one of 30 classes has ended, none later than this one.
    pub fn ended(&mut self, end: Ended)
        requires in_order { IsPast self.old end.moment }
        requires class { end.class < 30 }
        ensures { self.new ≡ self.old ++ end ∷ [] }
    {
        let sums = self.sums.moved_to(end.moment / WINDOW + 1);
        self.sums = sums.and(end);
        self.past = self.past.and(&end);
    }

    /// The demand of the classes below this one, in workers times 131,072 squared, and at most that of 4,096 workers.
    pub fn below(&self, class: u32, moment: u64) -> u128
        requires in_order { IsPast self.now moment }
        requires class { class ≤ 30 }
        ensures { result ≡ lowered (demand self.now moment class) }
    {
        let sums = self.sums.moved_to(moment / WINDOW + 1);
        let part = WINDOW - moment % WINDOW;
        sums.weighed(class, part).min(MOST_DEMAND)
    }
}

/// The time for which requests of each class ran that ended in a window, and in the one before, as far as 64 bits hold
/// it. A sum that they don't hold is more than the rule can tell, whatever the part of it that counts.
#[derive(Clone, Copy)]
pub struct Sums {
    pub latest: u64,
    pub current: [u64; 30],
    pub previous: [u64; 30],
}

impl Sums {
    // The sums at a later window, or at the same.
    fn moved_to(&self, window: u64) -> Sums
        requires { self.now.latest ≤ window }
        ensures window { result.latest ≡ window }
        ensures keeps { (past : List Ended) → Keeps past self.now → HasWindows past result }
    {
        if window == self.latest {
            *self
        } else if window - self.latest == 1 {
            Sums {
                latest: window,
                current: zeros(),
                previous: self.current,
            }
        } else {
            Sums {
                latest: window,
                current: zeros(),
                previous: zeros(),
            }
        }
    }

    // The sums with one more end in their window.
    fn and(&self, end: Ended) -> Sums
        requires window { self.now.latest ≡ window_of end.moment }
        requires class { end.class < 30 }
        ensures { (past : List Ended) → HasWindows past self.now → IsPast past end.moment
            → Keeps (past ++ end ∷ []) result }
    {
        let mut sums = *self;
        let before = self.current[end.class as usize];
        sums.current[end.class as usize] = before.saturating_add(end.ran);
        sums
    }

    // The sums of the classes below this one, where this many microseconds of the older window count.
    fn weighed(&self, class: u32, part: u64) -> u128
        requires class { class ≤ 30 }
        requires part { part ≤ 131072 }
        ensures { result ≡ weighed self.now part class }
    {
        let mut total: u128 = 0;
        for k in 0..class {
            total += share(self.previous[k as usize], self.current[k as usize], part);
        }
        total
    }
}

// The part of a sum of the older window that counts, and the whole of one of the newer.
fn share(older: u64, newer: u64, part: u64) -> u128
    requires { part ≤ 131072 }
    ensures value { result ≡ older * part + newer * 131072 }
    ensures few { result ≤ 19342813113834066795298816 }
{
    older as u128 * part as u128 + newer as u128 * WINDOW as u128
}

fn zeros() -> [u64; 30]
    ensures { (class : ℕ) → class < 30 → slice_index result class ≡ 0 }
{
    [0; 30]
}
