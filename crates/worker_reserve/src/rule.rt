//! When a free worker declines.
ghost use Rattle.std.specs.Prelude.{◌≡◌, ◌*◌, ◌↔◌, ◌≤◌, IsTrue};
ghost use Rattle.worker_reserve.specs.Rule.{Declines, IsInRange, IsOpen, IsWorth, IsShort, cap_of};

/// A worker, in the units of a demand: 131,072 squared.
const WORKER: u128 = 17179869184;

/// What workers may spend on staying free.
#[derive(Clone, Copy, Debug)]
pub struct Budget {
    /// The part of all time for which workers may stay free, in millionths.
    pub idle_ppm: u32,
    /// The number of workers, up to 4,096.
    pub workers: u32,
    /// The credit, in millionths of a microsecond.
    pub credit: u64,
}

/// What a free worker knows of its choice and of the others.
#[derive(Clone, Copy, Debug)]
pub struct Question {
    /// How many running requests are so long that a small one beside the choice would wait for them.
    pub longer: u32,
    /// How many workers decline already.
    pub declining: u32,
    /// Whether at least two tenants have requests that wait or run.
    pub several_tenants: bool,
    /// Whether no request comes any more.
    pub is_closed: bool,
    /// Whether a head that is small beside the choice is eligible for the worker.
    pub small_is_eligible: bool,
}

impl Budget {
    /// Whether a free worker declines its choice, and stays free. `smaller` is the demand of requests that are small
    /// beside the choice, and `visitors` the part of it that is of visitors, each at most that of 4,096 workers.
    pub fn declines(&self, question: &Question, smaller: u128, visitors: u128) -> bool
        requires budget { IsInRange self.now }
        requires smaller { smaller ≤ 70368744177664 }
        requires visitors { visitors ≤ 70368744177664 }
        ensures { IsTrue result ↔ Declines self.now question.now smaller visitors }
    {
        self.is_open(question)
            && WORKER <= 100 * visitors
            && self.is_worth(smaller)
            && self.is_short(question.longer, smaller)
            && !question.small_is_eligible
    }

    // Whether declining is open at all.
    fn is_open(&self, question: &Question) -> bool
        ensures { IsTrue result ↔ IsOpen self.now question.now }
    {
        let cost = 61000000 * (question.declining as u64 + 1);
        question.several_tenants && !question.is_closed && cost < self.credit
    }

    // Whether a worker that is kept free is worth its part of the time.
    fn is_worth(&self, smaller: u128) -> bool
        ensures { IsTrue result ↔ IsWorth self.now smaller }
    {
        if smaller >= WORKER {
            return true;
        }
        1000000 * (WORKER - smaller) <= 4 * self.idle_ppm as u128 * self.workers as u128 * WORKER
    }

    // Whether fewer workers would be left to smaller requests than these keep busy, and some more by the credit.
    fn is_short(&self, longer: u32, smaller: u128) -> bool
        requires budget { IsInRange self.now }
        requires smaller { smaller ≤ 70368744177664 }
        ensures { IsTrue result ↔ IsShort self.now longer smaller }
    {
        let cap = self.cap();
        let left = self.workers.saturating_sub(longer) as u128 * WORKER;
        scaled(left, cap) < scaled(smaller, cap) + 2 * self.credit as u128 * WORKER
    }

    /// The most credit that there may be, in millionths of a microsecond: a second of each worker, by the idle part.
    pub fn cap(&self) -> u128
        requires { IsInRange self.now }
        ensures value { result ≡ cap_of self.now }
        ensures few { result ≤ 4096000000000000 }
    {
        self.idle_ppm as u128 * 1000000 * self.workers as u128
    }
}

fn scaled(units: u128, cap: u128) -> u128
    requires units { units ≤ 70368744177664 }
    requires cap { cap ≤ 4096000000000000 }
    ensures value { result ≡ units * cap }
    ensures few { result ≤ 288230376151711744000000000000 }
{
    units * cap
}
