//! Laws of a pool that serves a trace, for any clock.
ghost use Rattle.trace_pool.specs.Laws.{PoolHistoryIs, PoolMomentsAre};

use fq_io::Clock;

/// Where each submitter of a pool has fed its rows and each worker has worked to the end, no row was refused and no
/// Report was left out: the past is a history that serves the trace. Each row is submitted, its request is taken once,
/// is reported as often as its cost asks, and is done at that cost, and the history closes once, after the last Submit.
pub fn pool_history_is<K: Clock>(clock: &K)
    ensures { PoolHistoryIs (K.tells clock.now) }
{}

/// Each entry of that history stands at the effective moment of one that the clock tells.
pub fn pool_moments_are<K: Clock>(clock: &K)
    ensures { PoolMomentsAre (K.tells clock.now) }
{}
