//! The gifts of a slot to tenants.
ghost use Rattle.std.specs.Prelude.{◌≡◌, ◌<◌, length, map, filter, IfOk, OnOk, All};
ghost use Rattle.fq_model.specs.Level.{level};
ghost use Rattle.fluid_reference.specs.Slots.{CanShare, AreBacklogged, want_of, wants_of, served_next, has_backlog};

use fq_model::level::{Backlog, Level};
use std::alloc::AllocError;
use water_level::gifts::give;
use water_level::levels::level;

/// Adds the gifts of a slot that shares this number of units to the service of the tenants that have a backlog, and
/// gives the level at which the slot was shared. The others get nothing, and no step is taken for them. Both vectors
/// lend their memory: `left` then names the tenants that have a backlog after the slot.
pub fn share(
    cap: u64,
    costs: &[u64],
    served: &mut [u64],
    weights: &[u32],
    backlogged: &[u32],
    wants: &mut Vec<Backlog>,
    left: &mut Vec<u32>,
) -> Result<Level, AllocError>
    requires in_range { CanShare costs.now served.old weights.now }
    requires backlogged { AreBacklogged costs.now served.old backlogged.now }
    ensures next { OnOk result (served.new ≡ served_next cap costs.now served.old weights.now) }
    ensures level { IfOk result (λ l. l ≡ level cap (wants_of costs.now served.old weights.now)) }
    ensures left { OnOk result (AreBacklogged costs.now served.new left.new.items) }
{
    note_wants(costs, served, weights, backlogged, wants)?;
    let level = level(cap, wants.as_slice());
    for k in 0..backlogged.len() {
        served[backlogged[k] as usize] += give(level, wants[k]);
    }
    note_backlogged(costs, served, backlogged, left)?;
    Ok(level)
}

// The backlog of each of these tenants: the costs of its requests that joined, less its service.
fn note_wants(
    costs: &[u64],
    served: &[u64],
    weights: &[u32],
    tenants: &[u32],
    wants: &mut Vec<Backlog>,
) -> Result<(), AllocError>
    requires served { length served.now ≡ length costs.now }
    requires weights { length weights.now ≡ length costs.now }
    requires known { All (λ t. t < length costs.now) tenants.now }
    ensures { OnOk result (wants.new.items ≡ map (want_of costs.now served.now weights.now) tenants.now) }
{
    wants.clear();
    for t in tenants {
        let tenant = *t as usize;
        wants.push(Backlog {
            units: costs[tenant].saturating_sub(served[tenant]),
            weight: weights[tenant],
        })?;
    }
    Ok(())
}

// Those of these tenants that have a backlog.
fn note_backlogged(
    costs: &[u64],
    served: &[u64],
    tenants: &[u32],
    left: &mut Vec<u32>,
) -> Result<(), AllocError>
    requires served { length served.now ≡ length costs.now }
    requires known { All (λ t. t < length costs.now) tenants.now }
    ensures { OnOk result (left.new.items ≡ filter (has_backlog costs.now served.now) tenants.now) }
{
    left.clear();
    for t in tenants {
        if served[*t as usize] < costs[*t as usize] {
            left.push(*t)?;
        }
    }
    Ok(())
}
