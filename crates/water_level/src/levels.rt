//! The level at which a capacity is shared.
ghost use Rattle.std.specs.Prelude.{◌<◌, ◌≤◌, ◌+◌, length, All};
ghost use Rattle.fq_model.specs.Level.{IsLevel, IsGreatestLevel, LeavesFewUnits, gifts_at, total_units};
ghost use Rattle.water_level.specs.Backlogs.{IsBacklog};

use crate::gifts::{Measure, measured, next_rise, sum_of_gifts, sum_of_units};
use fq_model::level::{Backlog, Level};
use fq_model::limits::TEXT_TENANTS;

/// Levels that are nearer to one another are halved: for them a look at the next rise is not worth its time.
const NARROW: u64 = 16;

/// A level that serves each backlog whole: 1024 times the greatest of all backlogs.
const HIGHEST: u64 = 2048000000000000000;

/// The level at which a capacity is shared, in microseconds of work: all are served whole where they fit, and else up
/// to the greatest level whose gifts fit. It is found by guesses, each by the units that the last guess leaves; nothing
/// here takes a step for each level, or memory.
pub fn level(cap: u64, rows: &[Backlog]) -> Level
    requires few { length rows.now ≤ TEXT_TENANTS }
    requires in_range { All IsBacklog rows.now }
    ensures level { IsLevel cap rows.now result }
    ensures leaves { LeavesFewUnits cap rows.now result }
{
    if sum_of_units(rows) <= cap {
        return Level::All;
    }
    let Bounds { low, high } = between(cap, rows);
    Level::At(search(cap, rows, low, high))
}

// A level whose gifts fit, and a higher one whose gifts don't.
#[derive(Clone, Copy)]
struct Bounds {
    low: u64,
    high: u64,
}

// A level whose gifts fit, and a greater one whose gifts do not.
fn between(cap: u64, rows: &[Backlog]) -> Bounds
    requires few { length rows.now ≤ TEXT_TENANTS }
    requires in_range { All IsBacklog rows.now }
    requires over { cap < total_units rows.now }
    ensures fits { gifts_at result.low rows.now ≤ cap }
    ensures over { cap < gifts_at result.high rows.now }
{
    let mut low: u64 = 0;
    let mut high: u64 = HIGHEST;
    let mut guess = next_guess(cap, measured(0, rows), 0);
    'closer: while low < guess && guess < high {
        let at = measured(guess, rows);
        if at.sum <= cap {
            low = guess;
            guess = next_guess(cap, at, guess);
        } else {
            high = guess;
        }
    }
    Bounds { low, high }
}

// The next level to look at, after a level whose gifts fit and which has this measure. It is the level at which the
// backlogs that are not served whole share the units that the others leave, if that is higher: a step of Newton's
// method, since the sum of gifts rises by less and less. Else it is a level that is too high for them, whatever is lost
// by rounding. Nothing is promised of it, since only time hangs on it.
fn next_guess(cap: u64, at: Measure, low: u64) -> u64 {
    let room = cap.saturating_sub(at.whole) as u128 * 1024;
    let share = quotient(room, at.weights);
    if share > low {
        share
    } else {
        quotient(room + 1023 * at.others as u128, at.weights).saturating_add(1)
    }
}

// The quotient of two numbers, as far as 64 bits hold it. Most numbers that are divided here fit 64 bits, and a
// processor divides those faster than numbers of 128.
fn quotient(number: u128, by: u64) -> u64 {
    let by = by.max(1);
    if number <= u64::MAX as u128 {
        number as u64 / by
    } else {
        (number / by as u128).min(u64::MAX as u128) as u64
    }
}

// The greatest level whose gifts fit, from `low`, where they do, to below `high`, where they don't.
fn search(cap: u64, rows: &[Backlog], low: u64, high: u64) -> u64
    requires few { length rows.now ≤ TEXT_TENANTS }
    requires in_range { All IsBacklog rows.now }
    requires fits { gifts_at low rows.now ≤ cap }
    requires over { cap < gifts_at high rows.now }
    ensures { IsGreatestLevel cap rows.now result }
{
    let mut low = low;
    let mut high = high;
    let mut rise = low;
    'search: while high - low > 1 {
        if rise <= low && high - low >= NARROW {
            rise = next_rise(low, rows);
        }
        let between = probe(low, high, rise);
        if sum_of_gifts(between, rows) <= cap {
            low = between;
        } else {
            high = between;
        }
    }
    low
}

// A level between two to look at next, where `rise` is the next level at which gifts rise, if it is above the lower
// one.
// Where gifts rise at few levels between them, as where weights are equal, it is the first of these levels, or the last
// level below `high` if there is none; else it is the middle.
fn probe(low: u64, high: u64, rise: u64) -> u64
    requires { low + 1 < high }
    ensures above { low < result }
    ensures below { result < high }
{
    if rise.saturating_sub(low) > (high - low) / 8 {
        rise.min(high - 1)
    } else {
        low + (high - low) / 2
    }
}
