//! Where a choice is made.
ghost use Rattle.std.specs.Prelude.{◌≡◌, ◌↔◌, IsTrue};
ghost use Rattle.fq_model.specs.Keys.{finish, eligible_key, IsEligible, FinishBefore, EligibleBefore};
ghost use Rattle.tag_rules.specs.Orders.{ComesBefore};

use crate::head_keys::Keys;
use crate::keys::eligible_key;
use fq_model::config::Policy;
use std::marker::Model;

/// The policy under which a worker chooses, the number of workers, the worker, and virtual time, in steps.
#[derive(Clone, Copy)]
pub struct Turn {
    pub policy: Policy,
    pub workers: u32,
    pub worker: u32,
    pub virtual_time: i128,
}

impl Model for Turn {
    ghost use Rattle.std.specs.Prelude.{◌<◌};
    ghost use Rattle.fq_model.specs.Keys as spec;

    ghost Value = { spec.Turn };

    ghost view = { λ at. record {
      policy = at.policy;
      workers = at.workers;
      worker = at.worker;
      virtual_time = at.virtual_time;
    } };

    ghost invariant = { λ at. at.worker < at.workers };

    ghost inverse = { λ at. record {
      policy = at.policy;
      workers = at.workers;
      worker = at.worker;
      virtual_time = at.virtual_time;
    } };
}

impl Turn {
    /// Whether the head is eligible for the worker: it may be chosen before every head that is not.
    pub fn is_eligible(self, keys: Keys) -> bool
        ensures { IsTrue result ↔ IsEligible self keys }
    {
        match self.policy {
            Policy::Wfq => true,
            Policy::Wf2q | Policy::Msf2q | Policy::TwoDfq | Policy::TwoDfqPlus => {
                self.eligible_key(keys) <= self.virtual_time
            }
        }
    }

    /// Whether the head of keys `a` becomes eligible before that of `b`: by eligible key, then by finish, then by
    /// number.
    pub fn eligible_before(self, a: Keys, b: Keys) -> bool
        ensures { IsTrue result ↔ EligibleBefore self a b }
    {
        is_before(
            self.eligible_key(a),
            self.eligible_key(b),
            finishes_before(a, b),
        )
    }

    /// The virtual time from which on the head is eligible, in steps. It may be below 0.
    pub fn eligible_key(self, keys: Keys) -> i128
        ensures { result ≡ eligible_key self keys }
    {
        eligible_key(self.policy, keys, self.worker, self.workers)
    }
}

/// Whether the head of keys `a` finishes before that of `b`: by finish, then by number.
pub fn finishes_before(a: Keys, b: Keys) -> bool
    ensures { IsTrue result ↔ FinishBefore a b }
{
    is_before(a.finish(), b.finish(), a.request < b.request)
}

// Whether a comes before b, where `next` says so of equal ones.
fn is_before(a: i128, b: i128, next: bool) -> bool
    ensures { IsTrue result ↔ ComesBefore a b (IsTrue next) }
{
    a < b || (a == b && next)
}
