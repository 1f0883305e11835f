//! Work that is counted up step by step.
ghost use Rattle.std.specs.Prelude.{◌≡◌, ◌≤◌, ◌*◌, List, Some, length};
ghost use Rattle.program_model.specs.PoolHistory.{step_of};
ghost use Rattle.gate_rules.specs.declared.counters.Counters.{Counters};
ghost use Rattle.gate_rules.specs.Counting.{IsAtMost};
ghost use Rattle.gate_rules.specs.Slices.{counters_of, FollowsIfTold};
ghost use Rattle.gate_rules.specs.Stepping.{IsStepping, step_course};

use crate::counters::Counters;
use crate::gate::Slice;
use fq_model::limits::{GREATEST_COST, MOST_SLICES};
use std::marker::Model;

/// The course of a job whose cost is known beforehand: its work rises by one step a slice up to the cost, in
/// microseconds, and its other counters stay 0.
#[derive(Drop)]
pub struct Steps {
    step: u64,
    cost: u64,
}

// Contracts see the course.
impl Model for Steps {
    ghost Value = { List Counters };

    ghost view = { λ steps. step_course steps.step steps.cost };

    ghost invariant = { λ steps. IsStepping steps.step steps.cost };
}

impl Steps {
    /// Steps of `refresh` microseconds, after each of which a running request is charged anew (Mace and others, 2016),
    /// or of as much more as the greatest number of slices asks; one step in all where `refresh` is 0.
    pub fn new(refresh: u64, cost: u64) -> Steps
        requires refresh { refresh ≤ GREATEST_COST }
        requires some { 1 ≤ cost }
        requires limit { cost ≤ GREATEST_COST }
        ensures { result ≡ step_course (step_of refresh cost) cost }
    {
        let step = if refresh == 0 {
            cost
        } else {
            refresh.max(cost.div_ceil(MOST_SLICES as u64))
        };
        Steps { step, cost }
    }

    /// How many slices there are.
    pub fn count(&self) -> u32
        ensures { result ≡ length self.now }
    {
        ((self.cost - 1) / self.step) as u32 + 1
    }

    /// The answer of slice `k`, after counters of `last`.
    pub fn slice(&self, k: u32, last: Counters) -> Slice
        ensures rises { IsAtMost last (counters_of result) }
        ensures follows { FollowsIfTold (Some self.now) k last result }
    {
        let number = k as u64 + 1;
        let item = Counters {
            work: self.cost.min(number * self.step),
            items: 0,
            bytes: 0,
        };
        let counters = last.greater(item);
        if number < self.count() as u64 {
            Slice::More(counters)
        } else {
            Slice::End(counters)
        }
    }
}
