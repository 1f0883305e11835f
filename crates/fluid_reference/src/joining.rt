//! The requests that join by a slot's start.
ghost use Rattle.std.specs.Prelude.{◌≡◌, ◌≤◌, ◌<◌, ◌+◌, length, All, IfOk, OnOk, slice_set};
ghost use Rattle.fluid_reference.specs.Slots.{IsRowOf, HaveJoined, AreBacklogged, row_of, number_at};

use fq_model::fluid::FluidRow;
use fq_model::limits::{GREATEST_BACKLOG, MOST_FLUID_ROWS};
use std::alloc::AllocError;

/// Adds to each tenant's costs those of its requests that join by a moment, of requests in the order of their
/// submissions from a place on, and to the tenants that have a backlog those that have one now. Gives the place of the
/// next request.
pub fn join(
    costs: &mut [u64],
    backlogged: &mut Vec<u32>,
    served: &[u64],
    sorted: &[FluidRow],
    from: usize,
    at: u128,
) -> Result<usize, AllocError>
    requires few { length sorted.now ≤ MOST_FLUID_ROWS }
    requires in_range { All (IsRowOf (length costs.old)) sorted.now }
    requires served { length served.now ≡ length costs.old }
    requires joined { HaveJoined sorted.now at from costs.old }
    ensures len { IfOk result (λ _. length costs.new ≡ length costs.old) }
    ensures joined { IfOk result (λ place. HaveJoined sorted.now at place costs.new) }
    ensures next { IfOk result (λ place. place < length sorted.now → at < (row_of sorted.now place).submit) }
    ensures backlogged { AreBacklogged costs.old served.now backlogged.old.items
        → IfOk result (λ _. AreBacklogged costs.new served.now backlogged.new.items) }
{
    let mut joined = from;
    'join: while joined < sorted.len() && sorted[joined].submit as u128 <= at {
        add(costs, backlogged, served, sorted[joined])?;
        joined += 1;
    }
    Ok(joined)
}

// Adds one request.
fn add(
    costs: &mut [u64],
    backlogged: &mut Vec<u32>,
    served: &[u64],
    row: FluidRow,
) -> Result<(), AllocError>
    requires in_range { IsRowOf (length costs.old) row }
    requires small { number_at costs.old row.tenant + row.cost ≤ GREATEST_BACKLOG }
    requires served { length served.now ≡ length costs.old }
    ensures costs { OnOk result (costs.new
        ≡ slice_set costs.old row.tenant (number_at costs.old row.tenant + row.cost)) }
    ensures backlogged { AreBacklogged costs.old served.now backlogged.old.items
        → OnOk result (AreBacklogged costs.new served.now backlogged.new.items) }
{
    let tenant = row.tenant as usize;
    let had_backlog = served[tenant] < costs[tenant];
    costs[tenant] += row.cost;
    if !had_backlog && served[tenant] < costs[tenant] {
        backlogged.push(row.tenant)?;
    }
    Ok(())
}
