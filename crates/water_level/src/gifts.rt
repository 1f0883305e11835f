//! The gifts of a level to backlogs, and sums over backlogs.
ghost use Rattle.std.specs.Prelude.{◌≡◌, ◌≤◌, length, All};
ghost use Rattle.fq_model.specs.Level.{gift, gift_at, gifts_at, total_units};
ghost use Rattle.water_level.specs.Backlogs.{IsBacklog};

use fq_model::level::{Backlog, Level};
use fq_model::limits::TEXT_TENANTS;

/// The gift to a backlog at a level, in microseconds of work.
pub fn give(level: Level, row: Backlog) -> u64
    ensures { result ≡ gift level row }
{
    match level {
        Level::All => row.units,
        Level::At(x) => gift_at(x, row),
    }
}

fn gift_at(x: u64, row: Backlog) -> u64
    ensures { result ≡ gift_at x row }
{
    (row.units as u128).min(x as u128 * row.weight as u128 / 1024) as u64
}

/// The sum of the gifts at a level.
pub(crate) fn sum_of_gifts(x: u64, rows: &[Backlog]) -> u64
    requires few { length rows.now ≤ TEXT_TENANTS }
    requires in_range { All IsBacklog rows.now }
    ensures { result ≡ gifts_at x rows.now }
{
    let mut sum: u64 = 0;
    for b in rows {
        sum += gift_at(x, *b);
    }
    sum
}

/// The sum of the units.
pub(crate) fn sum_of_units(rows: &[Backlog]) -> u64
    requires few { length rows.now ≤ TEXT_TENANTS }
    requires in_range { All IsBacklog rows.now }
    ensures { result ≡ total_units rows.now }
{
    let mut sum: u64 = 0;
    for b in rows {
        sum += b.units;
    }
    sum
}

/// Sums over backlogs at a level. The sum of the gifts is promised, and the others guide a search.
#[derive(Clone, Copy)]
pub(crate) struct Measure {
    /// The sum of the gifts.
    pub sum: u64,
    /// The units of the backlogs that are served whole.
    pub whole: u64,
    /// The weights of the others.
    pub weights: u64,
    /// The number of the others.
    pub others: u64,
}

/// The sums over these backlogs.
pub(crate) fn measured(x: u64, rows: &[Backlog]) -> Measure
    requires few { length rows.now ≤ TEXT_TENANTS }
    requires in_range { All IsBacklog rows.now }
    ensures { result.sum ≡ gifts_at x rows.now }
{
    let mut sum: u64 = 0;
    let mut whole: u64 = 0;
    let mut weights: u64 = 0;
    let mut others: u64 = 0;
    for b in rows {
        let gift = gift_at(x, *b);
        sum += gift;
        if gift == b.units {
            whole = whole.wrapping_add(gift);
        } else {
            weights = weights.wrapping_add(b.weight as u64);
            others = others.wrapping_add(1);
        }
    }
    Measure {
        sum,
        whole,
        weights,
        others,
    }
}

/// The least level above this at which the gift of a backlog rises, or the greatest number. Only that it is no lower
/// level is promised, since it guides a search.
pub(crate) fn next_rise(x: u64, rows: &[Backlog]) -> u64
    ensures { x ≤ result }
{
    let mut least = u64::MAX;
    for b in rows {
        if gift_at(x, *b) < b.units {
            least = least.min(rise_of(x, b.weight));
        }
    }
    least.max(x)
}

// The least level above this at which the share of a weight is a unit more.
fn rise_of(x: u64, weight: u32) -> u64 {
    let part = x.wrapping_mul(weight as u64) % 1024;
    x.saturating_add((1024 - part).div_ceil(weight.max(1) as u64))
}
