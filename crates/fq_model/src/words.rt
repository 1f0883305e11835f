//! The words for policies and estimators.
ghost use Rattle.std.specs.Prelude.{◌≡◌, ok_or, Some};
ghost use Rattle.fq_model.specs.Spelling.{policy_of, estimator_of, policy_word, estimator_word};

use crate::config::{Estimator, Policy};
use std::error::Error;
use std::fmt;
use std::str::FromStr;

/// The word names no policy, or no estimator.
#[derive(Clone, Copy, Debug)]
pub struct UnknownWord;

impl fmt::Display for UnknownWord {
    fn fmt<W: fmt::Write>(&self, f: &mut fmt::Formatter<W>) -> fmt::Result {
        f.write_str("no policy or estimator has this name")
    }
}

impl Error for UnknownWord {}

impl FromStr for Policy {
    type Err = UnknownWord;

    ghost from_str_gives = { λ text read. read ≡ ok_or (policy_of text) (record {}) };

    fn from_str(text: &str) -> Result<Policy, UnknownWord> {
        match text {
            "wfq" => Ok(Policy::Wfq),
            "wf2q" => Ok(Policy::Wf2q),
            "msf2q" => Ok(Policy::Msf2q),
            "2dfq" => Ok(Policy::TwoDfq),
            "2dfq+" => Ok(Policy::TwoDfqPlus),
            _ => Err(UnknownWord),
        }
    }
}

impl fmt::Display for Policy {
    ghost output = { λ p. Some (policy_word p) };

    fn fmt<W: fmt::Write>(&self, f: &mut fmt::Formatter<W>) -> fmt::Result {
        f.write_str(match self {
            Policy::Wfq => "wfq",
            Policy::Wf2q => "wf2q",
            Policy::Msf2q => "msf2q",
            Policy::TwoDfq => "2dfq",
            Policy::TwoDfqPlus => "2dfq+",
        })
    }
}

impl FromStr for Estimator {
    type Err = UnknownWord;

    ghost from_str_gives = { λ text read. read ≡ ok_or (estimator_of text) (record {}) };

    fn from_str(text: &str) -> Result<Estimator, UnknownWord> {
        match text {
            "declared" => Ok(Estimator::Declared),
            "recent" => Ok(Estimator::Recent),
            "pessimistic" => Ok(Estimator::Pessimistic),
            _ => Err(UnknownWord),
        }
    }
}

impl fmt::Display for Estimator {
    ghost output = { λ e. Some (estimator_word e) };

    fn fmt<W: fmt::Write>(&self, f: &mut fmt::Formatter<W>) -> fmt::Result {
        f.write_str(match self {
            Estimator::Declared => "declared",
            Estimator::Recent => "recent",
            Estimator::Pessimistic => "pessimistic",
        })
    }
}
