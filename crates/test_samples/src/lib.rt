//! The configuration that tests of several crates begin with.
#![tactic(auto)]

ghost use Rattle.std.specs.Prelude.{◌≡◌};
ghost use Rattle.test_samples.specs.Samples.{sample_config};

use fq_model::config::{Config, Estimator, Policy, Weights};
use fq_model::limits::Limits;

/// Tenants of these weights and one worker, under 2DFQ and with costs as declared. A test that needs another number
/// changes it.
pub fn sample_config(weights: Vec<u32>) -> Config
    ensures { result ≡ sample_config weights.items }
{
    Config {
        limits: Limits::Text,
        workers: 1,
        weights: Weights::from_vec(weights),
        kinds: 1,
        entries: 100,
        requests: 10,
        policy: Policy::TwoDfq,
        estimate: Estimator::Declared,
        initial: 1000,
    }
}
