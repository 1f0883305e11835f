ghost use Rattle.std.specs.Prelude.{◌≡◌, ◌≤◌, ◌<◌, ◌+◌, ℕ, length, All};
ghost use Rattle.std.specs.List.Sorted.{IsNonDecreasingBy};
ghost use Rattle.fq_model.specs.Limits.{IsTextWeight};
ghost use Rattle.fluid_reference.specs.Slots.{IsRowOf, IsChangeOf, slot_at};

use crate::samples::{expect_same, expect_same_at, two_tenants};
use fluid_reference::fault::FluidFault;
use fluid_reference::reference::FluidReference;
use fluid_reference::slots::slots;
use fq_model::fluid::{Change, FluidRow, What};
use std::alloc::Global;
use std::process::Abort;

// A completed request.
fn row(tenant: u32, submit: u64, cost: u64) -> FluidRow
    requires known { tenant < 2 }
    requires small { cost ≤ 1000 }
    ensures { IsRowOf 2 result }
{
    FluidRow {
        tenant,
        submit,
        cost,
    }
}

// A change of a weight, and one of the number of workers.
fn weight_set(moment: u64, tenant: u32, weight: u32) -> Change
    requires known { tenant < 2 }
    requires weight { IsTextWeight weight }
    ensures range { IsChangeOf 2 result }
    ensures moment { result.moment ≡ moment }
{
    let what = What::Weight { tenant, weight };
    Change { moment, what }
}

fn workers_set(moment: u64, count: u32) -> Change
    requires some { 1 ≤ count }
    requires few { count ≤ 64 }
    ensures range { IsChangeOf 2 result }
    ensures moment { result.moment ≡ moment }
{
    let what = What::Workers { count };
    Change { moment, what }
}

// From one slot on these are the services of the tenant; `wanted` has those of both tenants, slot by slot.
fn expect_services<R: Abort>(
    rt: &R,
    alloc: Global,
    told: &FluidReference,
    tenant: u32,
    from: usize,
    wanted: &[[u64; 2]],
)
    requires both { tenant < 2 }
    requires known { (k : ℕ) → k < length told.now → tenant < length (slot_at told.now k) }
    requires slots { from + length wanted.now ≤ 4 }
{
    let services = told
        .services(alloc, tenant)
        .expect(rt, "memory for services");
    expect_same(rt, services.len(), told.len());
    expect_same(rt, services.len(), from + wanted.len());
    for k in 0..wanted.len() {
        let service = services.as_slice().get(from + k).copied();
        expect_same_at(rt, from + k, service, Some(wanted[k][tenant as usize]));
    }
}

// Two tenants of weight 1 have these services by this number of workers, in slots of 10 microseconds, from one slot on.
fn expect_served<R: Abort>(
    rt: &R,
    alloc: Global,
    workers: u32,
    rows: &[FluidRow],
    changes: &[Change],
    from: usize,
    wanted: &[[u64; 2]],
)
    requires few { length rows.now ≤ 3 }
    requires rows { All (IsRowOf 2) rows.now }
    requires changes { All (IsChangeOf 2) changes.now }
    requires order { IsNonDecreasingBy (λ c. c.moment) changes.now }
    requires slots { from + length wanted.now ≤ 4 }
{
    let config = two_tenants(rt, alloc, workers);
    let count = from + wanted.len();
    let told = slots(alloc, rows, changes, &config, 10, count as u64);
    let Ok(told) = told else {
        panic!(rt; "no memory for levels")
    };
    for tenant in 0..2 {
        expect_services(rt, alloc, &told, tenant, from, wanted);
    }
}

#[test]
fn the_weight_at_a_slots_start_counts(rt: HostRuntime) {
    let rows = [row(0, 0, 100), row(1, 0, 100)];
    let early = [weight_set(10, 0, 3)];
    expect_served(&rt, rt.alloc(), 1, &rows, &early, 0, &[[5, 5], [13, 7]]);
    let late = [weight_set(11, 0, 3)];
    expect_served(&rt, rt.alloc(), 1, &rows, &late, 1, &[[10, 10], [18, 12]]);
}

#[test]
fn the_workers_at_a_slots_start_count(rt: HostRuntime) {
    let rows = [row(0, 0, 100), row(1, 0, 100)];
    let changes = [workers_set(10, 3), workers_set(10, 1)];
    expect_served(
        &rt,
        rt.alloc(),
        4,
        &rows,
        &changes,
        0,
        &[[20, 20], [25, 25]],
    );
}

#[test]
fn a_request_joins_at_a_slots_start(rt: HostRuntime) {
    let rows = [row(0, 11, 8), row(1, 10, 15), row(0, 0, 3)];
    let wanted = [[3, 0], [3, 10], [8, 15], [11, 15]];
    expect_served(&rt, rt.alloc(), 1, &rows, &[], 0, &wanted);
}

// This number of slots of two tenants is too great.
fn expect_too_long<R: Abort>(rt: &R, alloc: Global, count: u64) {
    let config = two_tenants(rt, alloc, 1);
    let table = slots(alloc, &[], &[], &config, 1000, count);
    let wanted = FluidFault::TooLong {
        slots: count,
        tenants: 2,
    };
    expect_same(rt, table.err(), Some(wanted));
}

#[test]
fn a_table_may_be_too_long(rt: HostRuntime) {
    expect_too_long(&rt, rt.alloc(), 2000001);
}
