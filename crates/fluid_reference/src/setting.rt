//! The weights and the number of workers at a slot's start.
ghost use Rattle.std.specs.Prelude.{◌≡◌, ◌≤◌, ◌<◌, length, All, take, List, ◌++◌, [], ◌∷◌};
ghost use Rattle.fq_model.specs.declared.config.Config.{Config};
ghost use Rattle.fq_model.specs.declared.fluid.Change.{Change};
ghost use Rattle.fq_model.specs.Limits.{IsTextWeight, IsWithin};
ghost use Rattle.fluid_reference.specs.Slots.{IsChangeOf, SettingIs, change_of};

use fq_model::fluid::{Change, What};
use fq_model::limits::TEXT_WORKERS;

/// Makes the changes that come by a moment, of changes in order of time from a place on. Gives the place of the next
/// change.
pub fn change(
    weights: &mut [u32],
    workers: &mut u32,
    changes: &[Change],
    from: usize,
    at: u128,
) -> usize
    requires in_range { All (IsChangeOf (length weights.old)) changes.now }
    requires from { from ≤ length changes.now }
    requires weights { All IsTextWeight weights.old }
    requires workers { IsWithin 1 TEXT_WORKERS workers.old }
    requires before { All (λ c. c.moment ≤ at) (take from changes.now) }
    ensures len { length weights.new ≡ length weights.old }
    ensures place { result ≤ length changes.now }
    ensures weights { All IsTextWeight weights.new }
    ensures workers { IsWithin 1 TEXT_WORKERS workers.new }
    ensures set { (C : Config) → SettingIs C (take from changes.now) weights.old workers.old
        → SettingIs C (take result changes.now) weights.new workers.new }
    ensures before { All (λ c. c.moment ≤ at) (take result changes.now) }
    ensures next { result < length changes.now → at < (change_of changes.now result).moment }
{
    let mut changed = from;
    'change: while changed < changes.len() && changes[changed].moment as u128 <= at {
        make(weights, workers, changes[changed]);
        changed += 1;
    }
    changed
}

// Makes one change.
fn make(weights: &mut [u32], workers: &mut u32, change: Change)
    requires in_range { IsChangeOf (length weights.old) change }
    requires weights { All IsTextWeight weights.old }
    requires workers { IsWithin 1 TEXT_WORKERS workers.old }
    ensures len { length weights.new ≡ length weights.old }
    ensures weights { All IsTextWeight weights.new }
    ensures workers { IsWithin 1 TEXT_WORKERS workers.new }
    ensures set { (C : Config) (older : List Change) → SettingIs C older weights.old workers.old
        → SettingIs C (older ++ change ∷ []) weights.new workers.new }
{
    match change.what {
        What::Weight { tenant, weight } => weights[tenant as usize] = weight,
        What::Workers { count } => *workers = count,
    }
}
