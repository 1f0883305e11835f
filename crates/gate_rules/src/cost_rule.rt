//! How a cost comes from counters.
ghost use Rattle.std.specs.Prelude.{◌≡◌, ◌≤◌, ℕ};
ghost use Rattle.gate_rules.specs.declared.counters.Counters.{Counters};
ghost use Rattle.gate_rules.specs.Rules.{IsWithinLimit, NeverFalls, work_cost};

use crate::counters::Counters;
use fq_model::limits::GREATEST_COST;
use std::marker::Model;

/// A function from counters to costs, which an implementation tells.
pub trait Cost {
    ghost cost_of: { Self → Counters → ℕ };

    /// The cost of these counters, in microseconds.
    fn cost(&self, counters: Counters) -> u64
        ensures { result ≡ cost_of self.now counters };
}

/// A function from counters to costs that is known to be at most 1,000,000,000 and never to fall where the counters
/// rise, so that no use and no cost that comes from it is refused.
#[derive(Drop)]
pub struct CostRule<F: Cost> {
    function: F,
}

// Contracts see the function.
impl<F: Cost> Model for CostRule<F> {
    ghost Value = { F };

    ghost view = { λ rule. rule.function };

    ghost invariant = { λ rule. IsWithinLimit (F.cost_of rule.function) × NeverFalls (F.cost_of rule.function) };
}

impl<F: Cost> CostRule<F> {
    /// Keeps the function.
    pub fn new(function: F) -> CostRule<F>
        requires limit { IsWithinLimit (F.cost_of function) }
        requires rises { NeverFalls (F.cost_of function) }
        ensures { result ≡ function }
    {
        CostRule { function }
    }

    /// The cost of these counters, in microseconds.
    pub fn cost(&self, counters: Counters) -> u64
        ensures answer { result ≡ F.cost_of self.now counters }
        ensures limit { result ≤ GREATEST_COST }
        ensures rises { NeverFalls (F.cost_of self.now) }
    {
        self.function.cost(counters)
    }
}

/// The work itself, as microseconds, and the greatest cost where there is more.
#[derive(Clone, Copy, Debug, Drop)]
pub struct WorkCost;

impl Cost for WorkCost {
    ghost cost_of = { λ _ counters. work_cost counters };

    fn cost(&self, counters: Counters) -> u64 {
        counters.work.min(GREATEST_COST)
    }
}
