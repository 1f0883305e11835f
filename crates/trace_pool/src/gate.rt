//! The gate of a trace.
ghost use Rattle.std.specs.Prelude.{◌≡◌, ◌≤◌, slice_get, option_map, IfSome};
ghost use Rattle.vt_fixed.specs.declared.limits.TheConstants.{GREATEST_COST};
ghost use Rattle.fq_model.specs.Limits.{IsWithin};
ghost use Rattle.trace_pool.specs.PoolEnd.{trace_course};
ghost use Rattle.trace_reader.specs.Rows.{AreCosts};

use gate_rules::counters::Counters;
use gate_rules::gate::{Gate, Slice};
use gate_rules::steps::Steps;
use program_model::trace::TraceRow;

/// Counts up the cost of a job's row, by its step. A job is a row's number.
#[derive(Drop)]
pub struct TraceGate<'a> {
    rows: &'a [TraceRow],
    refresh: u64,
    ghost costs: { AreCosts rows.now },
    ghost low: { refresh ≤ GREATEST_COST },
}

impl<'a> TraceGate<'a> {
    /// Counts by steps of `refresh` microseconds at least, or in one step where that is 0.
    pub fn new(rows: &'a [TraceRow], refresh: u64) -> TraceGate<'a>
        requires costs { AreCosts rows.now }
        requires low { refresh ≤ GREATEST_COST }
        ensures rows { result.rows.now ≡ rows.now }
        ensures refresh { result.refresh ≡ refresh }
    {
        TraceGate { rows, refresh }
    }

    // The cost of the job's row, if there is such a row.
    fn cost(&self, job: u64) -> Option<u64>
        ensures cost { result ≡ option_map (λ row. row.cost) (slice_get self.now.rows.now job) }
        ensures range { IfSome result (IsWithin 1 GREATEST_COST) }
    {
        let row = self.rows.get(job as usize)?;
        Some(row.cost)
    }
}

impl<'a> Gate<u64> for TraceGate<'a> {
    ghost course = { λ gate label. trace_course gate.refresh gate.rows.now label };

    fn slice(&self, job: &u64, k: u32, last: Counters) -> Slice {
        match self.cost(*job) {
            Some(cost) => Steps::new(self.refresh, cost).slice(k, last),
            None => Slice::End(last),
        }
    }
}
