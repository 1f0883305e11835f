//! The config line.
ghost use Rattle.std.specs.Prelude.{◌≡◌};
ghost use Rattle.program_model.specs.Document.{settings_of};

use crate::words::Words;
use fq_model::config::{Estimator, Policy};
use fq_model::limits::{GREATEST_COST, LEAST_ENTRIES, MOST_ENTRIES, TEXT_REQUESTS, TEXT_WORKERS};
use program_model::fault::ScriptKind;
use std::marker::Model;

/// The settings of a config line.
#[derive(Drop)]
pub struct Settings {
    /// 1 to 64.
    pub workers: u32,
    pub policy: Policy,
    pub estimate: Estimator,
    /// 1 to 1,000,000,000 microseconds.
    pub initial: u64,
    /// 4 to 4,194,304.
    pub entries: u32,
    /// 1 to 262,144.
    pub requests: u32,
}

impl Model for Settings {
    ghost use Rattle.program_model.specs.Document.{Settings};

    ghost Value = { Settings };

    ghost view = { λ s. record {
      workers = s.workers;
      policy = s.policy;
      estimate = s.estimate;
      initial = s.initial;
      entries = s.entries;
      requests = s.requests;
    } };
}

/// Reads the words of a config line.
#[tactic(auto, unfolding(program_model::specs::Document::settings_of))]
pub fn read_settings(words: &Words) -> Result<Settings, ScriptKind>
    ensures { result ≡ settings_of words.now }
{
    words.expect_count(7)?;
    let workers = words.small_at(1, 1, TEXT_WORKERS)?;
    let policy = words.policy_at(2)?;
    let estimate = words.estimator_at(3)?;
    let initial = words.ranged_at(4, 1, GREATEST_COST)?;
    let entries = words.small_at(5, LEAST_ENTRIES, MOST_ENTRIES)?;
    let requests = words.small_at(6, 1, TEXT_REQUESTS)?;
    Ok(Settings {
        workers,
        policy,
        estimate,
        initial,
        entries,
        requests,
    })
}
