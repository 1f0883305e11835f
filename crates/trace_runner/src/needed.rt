//! How many entries the simulated history of a trace has.
ghost use Rattle.std.specs.Prelude.{◌≡◌, ◌≤◌, ◌*◌, length};
ghost use Rattle.program_model.specs.Courses.{reports_below};
ghost use Rattle.program_model.specs.Simulated.{needed_entries};
ghost use Rattle.program_model.specs.TraceText.{IsLawfulTrace};
ghost use Rattle.trace_reader.specs.Rows.{AreCosts};
ghost use Rattle.trace_runner.specs.Plan.{planned_reports};

use fq_model::limits::{GREATEST_COST, MOST_ROWS};
use program_model::trace::TraceRow;
use trace_reader::trace::Trace;

/// The number of entries of the simulated history of a trace, where running requests are reported after each
/// `refresh` microseconds, or not at all where that is 0: a Submit, a Take and a Done of each request, its Reports, and
/// the Close. It may be more than a history can have.
pub fn needed(trace: &Trace, refresh: u64) -> u64
    requires { IsLawfulTrace trace.now }
    ensures { result ≡ needed_entries trace.now.rows refresh }
{
    let rows = trace.rows();
    3 * rows.len() as u64 + 1 + planned(rows, refresh)
}

// How many Reports all rows have.
fn planned(rows: &[TraceRow], refresh: u64) -> u64
    requires few { length rows.now ≤ MOST_ROWS }
    requires costs { AreCosts rows.now }
    ensures sum { result ≡ planned_reports rows.now refresh }
    ensures bound { result ≤ GREATEST_COST * length rows.now }
{
    let mut sum: u64 = 0;
    for row in rows {
        sum += reports_below(refresh, row.cost);
    }
    sum
}

// The number of Reports of a request of this cost: there is none at the cost itself, where the Done stands.
#[tactic(auto, unfolding(program_model::specs::Courses::reports_below))]
fn reports_below(refresh: u64, cost: u64) -> u64
    requires low { 1 ≤ cost }
    requires high { cost ≤ GREATEST_COST }
    ensures number { result ≡ reports_below refresh cost }
    ensures bound { result ≤ GREATEST_COST }
{
    if refresh == 0 {
        0
    } else {
        (cost - 1) / refresh
    }
}
