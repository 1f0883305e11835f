//! The gate, which runs a job slice by slice.
ghost use Rattle.std.specs.Prelude.{ℕ, List, Option};
ghost use Rattle.gate_rules.specs.declared.counters.Counters.{Counters};
ghost use Rattle.gate_rules.specs.Counting.{IsAtMost};
ghost use Rattle.gate_rules.specs.Slices.{counters_of, FollowsIfTold};

use crate::counters::Counters;
use fq_model::job::Job;

/// The answer of a slice: the counters after it, and whether the job has ended.
#[derive(Clone, Copy, Debug, PartialEq, Eq)]
pub enum Slice {
    /// The job goes on.
    More(Counters),
    /// The job has ended.
    End(Counters),
}

/// A gate runs jobs and counts their use. It may wait, and may be called by several workers at once.
pub trait Gate<J: Job> {
    /// The course of the job of a label, where the gate tells it: the counters after each of its slices.
    ghost course: { Self → ℕ → Option (List Counters) };

    /// Runs slice `k` of the job, counted from 0, and answers the counters since the job's beginning. `last` has those
    /// that the slice before answered, or zeros.
    fn slice(&self, job: &J, k: u32, last: Counters) -> Slice
        ensures rises { IsAtMost last (counters_of result) }
        ensures follows { FollowsIfTold (course self.now (J.label_of job.now)) k last result };
}
