//! The fluid service of one tenant in slots whose levels are known.
ghost use Rattle.std.specs.Prelude.{◌≡◌, ◌≤◌, ◌<◌, ◌-◌, ◌*◌, suc, length, take, All, IfOk, ℕ};
ghost use Rattle.std.specs.List.Sorted.{IsNonDecreasingBy};
ghost use Rattle.vt_fixed.specs.declared.limits.TheConstants.{GREATEST_COST};
ghost use Rattle.fq_model.specs.declared.config.Config.{Config};
ghost use Rattle.fq_model.specs.History.{weight_at};
ghost use Rattle.fq_model.specs.Fluid.{history_of_changes};
ghost use Rattle.fq_model.specs.Sums.{list_below};
ghost use Rattle.fluid_reference.specs.Slots.{CameBy, CanReplay, ChangedBy, change_of, owner_of, replayed, row_of};

use crate::owned::of_tenant;
use fq_model::config::Checked;
use fq_model::fluid::{Change, FluidRow, What};
use fq_model::level::{Backlog, Level};
use fq_model::limits::MOST_FLUID_ROWS;
use std::alloc::{AllocError, Global};
use water_level::gifts::give;

/// The fluid service of a tenant up to the end of each slot, where these are the levels of the slots, and requests and
/// changes are in the order of their tenants.
pub fn replay(
    alloc: Global,
    config: &Checked,
    rows: &[FluidRow],
    changes: &[Change],
    levels: &[Level],
    slot: u64,
    tenant: u32,
) -> Result<Vec<u64>, AllocError>
    requires known { tenant < length config.now.weights }
    requires ready { CanReplay (length config.now.weights) rows.now changes.now }
    ensures { IfOk result (λ v. v.items ≡ list_below
        (λ k. replayed config.now rows.now changes.now levels.now slot tenant (suc k)) (length levels.now)) }
{
    let own = of_tenant(rows, tenant);
    let changes = of_tenant(changes, tenant);
    let mut weight = config.weights()[tenant as usize];
    let mut joined: usize = 0;
    let mut changed: usize = 0;
    let mut cost: u64 = 0;
    let mut served: u64 = 0;
    let mut services = Vec::with_capacity(alloc, levels.len())?;
    let mut k: usize = 0;
    'slots: while k < levels.len() {
        let at = k as u128 * slot as u128;
        (joined, cost) = join_own(own, joined, cost, at);
        (changed, weight) = weigh(changes, changed, weight, at);
        let units = cost - served;
        if units == 0 {
            k = next_busy(own, joined, slot, k, levels.len());
            services.resize(k, served)?;
            continue;
        }
        served += give(levels[k], Backlog { units, weight });
        services.push(served)?;
        k += 1;
    }
    Ok(services)
}

// The first slot after slot k by whose start a tenant's request at this place has come, or the number of slots. A
// tenant that has no backlog at slot k is served nothing before.
fn next_busy(own: &[FluidRow], place: usize, slot: u64, k: usize, slots: usize) -> usize
    requires inside { k < slots }
    requires later { place < length own.now → k * slot < (row_of own.now place).submit }
    ensures after { k < result }
    ensures inside { result ≤ slots }
    ensures later { place < length own.now → (result - 1) * slot < (row_of own.now place).submit }
{
    if place >= own.len() {
        return slots;
    }
    if slot == 0 {
        return k + 1;
    }
    let last = (own[place].submit - 1) / slot;
    if last < slots as u64 {
        last as usize + 1
    } else {
        slots
    }
}

// The place of the first request that comes later, of a tenant's requests in the order of their submissions from a
// place on, and the cost of the requests before it.
fn join_own(own: &[FluidRow], from: usize, cost: u64, at: u128) -> (usize, u64)
    requires few { length own.now ≤ MOST_FLUID_ROWS }
    requires small { All (λ r. r.cost ≤ GREATEST_COST) own.now }
    requires came { CameBy own.now at from cost }
    ensures came { CameBy own.now at result.0 result.1 }
    ensures next { result.0 < length own.now → at < (row_of own.now result.0).submit }
{
    let mut joined = from;
    let mut cost = cost;
    'join: while joined < own.len() && own[joined].submit as u128 <= at {
        cost += own[joined].cost;
        joined += 1;
    }
    (joined, cost)
}

// The place of the first change that comes later, of changes of a tenant's weight in order of time from a place on, and
// the weight by then.
fn weigh(changes: &[Change], from: usize, weight: u32, at: u128) -> (usize, u32)
    requires came { ChangedBy changes.now at from }
    ensures came { ChangedBy changes.now at result.0 }
    ensures next { result.0 < length changes.now → at < (change_of changes.now result.0).moment }
    ensures weight { (C : Config) (t : ℕ) → All (λ c. owner_of c ≡ t) changes.now
        → weight ≡ weight_at C (history_of_changes (take from changes.now)) t
        → result.1 ≡ weight_at C (history_of_changes (take result.0 changes.now)) t }
{
    let mut changed = from;
    let mut weight = weight;
    'change: while changed < changes.len() && changes[changed].moment as u128 <= at {
        if let What::Weight { weight: set, .. } = changes[changed].what {
            weight = set;
        }
        changed += 1;
    }
    (changed, weight)
}
