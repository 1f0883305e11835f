//! The number of entries that the history of a pool may need.
ghost use Rattle.std.specs.Prelude.{◌≡◌, ◌≤◌, ◌*◌, length};
ghost use Rattle.vt_fixed.specs.declared.limits.TheConstants.{GREATEST_COST};
ghost use Rattle.fq_model.specs.declared.limits.TheConstants.{MOST_ROWS, MOST_SLICES};
ghost use Rattle.program_model.specs.Courses.{sum_over};
ghost use Rattle.program_model.specs.PoolHistory.{needed_pool_entries, row_reports};
ghost use Rattle.program_model.specs.TraceText.{IsLawfulTrace};
ghost use Rattle.trace_reader.specs.Rows.{AreCosts};

use gate_rules::steps::Steps;
use program_model::trace::TraceRow;
use trace_reader::trace::Trace;

/// The number of entries that the history of a pool may need, where running requests are reported after each
/// `refresh` microseconds, or more where a request would have too many slices, or not at all where that is 0: a
/// Submit, a Take and a Done of each request, its Reports, the Close, and one that stays free. It may be more than a
/// history can have.
pub fn needed(trace: &Trace, refresh: u64) -> u64
    requires lawful { IsLawfulTrace trace.now }
    requires refresh { refresh ≤ GREATEST_COST }
    ensures { result ≡ needed_pool_entries trace.now.rows refresh }
{
    let rows = trace.rows();
    3 * rows.len() as u64 + 2 + reports(rows, refresh)
}

// The number of Reports of all rows.
fn reports(rows: &[TraceRow], refresh: u64) -> u64
    requires few { length rows.now ≤ MOST_ROWS }
    requires costs { AreCosts rows.now }
    requires refresh { refresh ≤ GREATEST_COST }
    ensures sum { result ≡ sum_over (row_reports refresh) rows.now }
    ensures bound { result ≤ MOST_SLICES * length rows.now }
{
    let mut sum: u64 = 0;
    for row in rows {
        sum += Steps::new(refresh, row.cost).count() as u64 - 1;
    }
    sum
}
