//! The lines of a report, one for each tenant.
ghost use Rattle.std.specs.Prelude.{◌≡◌, ◌≤◌, length, IfOk, All, sum_by};
ghost use Rattle.fq_model.specs.Sums.{list_below};
ghost use Rattle.std.specs.List.Sorted.{IsNonDecreasingBy};
ghost use Rattle.lag_report.specs.Work.{EndsWithin, IsTable, line_of, line_for};

use crate::course::Course;
use crate::samples::{rank, samples};
use crate::work::gains;
use fluid_reference::owned::of_tenant;
use fluid_reference::reference::FluidReference;
use fq_model::lag::TenantLag;
use fq_model::limits::{GREATEST_BACKLOG, GREATEST_SLOT, MOST_CELLS, MOST_ENTRIES, TEXT_TENANTS};
use std::alloc::{AllocError, Global};

/// The report's line of each tenant, by number. The courses are in the order of their tenants, and `fluid` has the
/// service of each tenant by slot.
pub fn lines(
    alloc: Global,
    courses: &[Course],
    fluid: &FluidReference,
    weights: &[u32],
    slot: u64,
) -> Result<Vec<TenantLag>, AllocError>
    requires positive { 1 ≤ slot }
    requires short { slot ≤ GREATEST_SLOT }
    requires tenants { length weights.now ≤ TEXT_TENANTS }
    requires table { IsTable (length weights.now) fluid.now }
    requires order { IsNonDecreasingBy (λ c. c.tenant) courses.now }
    requires requests { length courses.now ≤ MOST_ENTRIES }
    requires costs { sum_by (λ c. c.cost) courses.now ≤ GREATEST_BACKLOG }
    requires end { All (EndsWithin slot (length fluid.now)) courses.now }
    ensures { IfOk result (λ v. v.items
        ≡ list_below (line_for weights.now courses.now fluid.now slot) (length weights.now)) }
{
    let mut lines = Vec::new(alloc);
    for t in 0..weights.len() {
        let served = fluid.services(alloc, t as u32)?;
        let own = of_tenant(courses, t as u32);
        let line = line(alloc, weights[t], own, served.as_slice(), slot)?;
        lines.push(line)?;
    }
    Ok(lines)
}

// The line of a tenant with this weight, requests with these courses, and this service up to the end of each slot.
fn line(
    alloc: Global,
    weight: u32,
    courses: &[Course],
    served: &[u64],
    slot: u64,
) -> Result<TenantLag, AllocError>
    requires positive { 1 ≤ slot }
    requires short { slot ≤ GREATEST_SLOT }
    requires some { 1 ≤ length served.now }
    requires few { length served.now ≤ MOST_CELLS }
    requires served { All (λ s. s ≤ GREATEST_BACKLOG) served.now }
    requires requests { length courses.now ≤ MOST_ENTRIES }
    requires costs { sum_by (λ c. c.cost) courses.now ≤ GREATEST_BACKLOG }
    requires end { All (EndsWithin slot (length served.now)) courses.now }
    ensures { IfOk result (λ line. line ≡ line_of weight served.now courses.now slot) }
{
    let gains = gains(alloc, courses, slot, served.len())?;
    let mut lags = samples(alloc, served, gains.as_slice())?;
    let lag = rank(lags.as_mut_slice());
    Ok(TenantLag {
        weight,
        requests: courses.len() as u32,
        charged: charged(courses),
        fluid: served[served.len() - 1],
        least: lag.least,
        p50: lag.p50,
        p90: lag.p90,
        p99: lag.p99,
        greatest: lag.greatest,
    })
}

// The net charge of requests that are done or withdrawn.
fn charged(courses: &[Course]) -> u64
    requires { sum_by (λ c. c.cost) courses.now ≤ GREATEST_BACKLOG }
    ensures { result ≡ sum_by (λ c. c.cost) courses.now }
{
    courses.iter().map(|course| course.cost).sum()
}
