//! The work done on requests, by slot.
ghost use Rattle.std.specs.Prelude.{◌≡◌, ◌≤◌, ◌<◌, ◌+◌, ◌*◌, ◌/◌, length, take, sum, sum_by, All, IfOk, ℕ};
ghost use Rattle.vt_fixed.specs.declared.limits.TheConstants.{GREATEST_COST};
ghost use Rattle.lag_report.specs.Work.{worked, work_in, EndsWithin, GainsAre};

use crate::course::Course;
use fq_model::limits::{GREATEST_BACKLOG, GREATEST_SLOT};
use std::alloc::{AllocError, Global};

/// The work gained in each slot by requests that end in these slots.
pub fn gains(
    alloc: Global,
    courses: &[Course],
    slot: u64,
    slots: usize,
) -> Result<Vec<u64>, AllocError>
    requires positive { 1 ≤ slot }
    requires short { slot ≤ GREATEST_SLOT }
    requires costs { sum_by (λ c. c.cost) courses.now ≤ GREATEST_BACKLOG }
    requires end { All (EndsWithin slot slots) courses.now }
    ensures len { IfOk result (λ v. length v.items ≡ slots) }
    ensures gains { IfOk result (λ v. GainsAre slot courses.now v.items) }
{
    let mut gains = vec![in alloc; 0u64; slots]?;
    for course in courses {
        spread(gains.as_mut_slice(), *course, slot);
    }
    Ok(gains)
}

// Adds the work on a request in each slot to the gains.
fn spread(gains: &mut [u64], course: Course, slot: u64)
    requires positive { 1 ≤ slot }
    requires short { slot ≤ GREATEST_SLOT }
    requires ends { EndsWithin slot (length gains.old) course }
    requires room { sum gains.old ≤ GREATEST_BACKLOG }
    ensures { (k : ℕ) → k ≤ length gains.old
        → sum (take k gains.new) ≡ sum (take k gains.old) + work_in slot k course }
{
    let first = course.taken.saturating_sub(1) / slot;
    let last = course.ended.saturating_sub(1) / slot;
    let mut before = 0;
    for k in first..last + 1 {
        let after = worked(course, (k + 1) * slot);
        gains[k as usize] += after - before;
        before = after;
    }
}

// The work done on a request by a moment.
fn worked(course: Course, moment: u64) -> u64
    requires cost { course.cost ≤ GREATEST_COST }
    ensures { result ≡ worked moment course }
{
    if course.ended <= moment {
        course.cost
    } else if moment <= course.taken {
        0
    } else {
        part(
            course.cost,
            moment - course.taken,
            course.ended - course.taken,
        )
    }
}

// The part of a cost that was gained in `gone` of its `time` microseconds, rounded down. A cost that equals its time is
// not divided, and most other products fit 64 bits, which a processor divides faster than 128.
fn part(cost: u64, gone: u64, time: u64) -> u64
    requires cost { cost ≤ GREATEST_COST }
    requires gone { gone < time }
    ensures { result ≡ cost * gone / time }
{
    if cost == time {
        return gone;
    }
    let product = cost as u128 * gone as u128;
    if product <= u64::MAX as u128 {
        product as u64 / time
    } else {
        (product / time as u128) as u64
    }
}
