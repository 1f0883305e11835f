//! Names, policies and estimators as words.
ghost use Rattle.std.specs.Prelude.{◌≡◌, is_some, IfSome};
ghost use Rattle.fq_model.specs.Spelling.{is_name, policy_of, estimator_of};

use fq_model::config::{Estimator, Policy};
use fq_model::names::is_name;

/// The name of a tenant or a kind that a word is, if it is one.
pub fn name(word: &[u8]) -> Option<&str>
    ensures named { is_some result ≡ is_name word.now }
    ensures same { IfSome result (λ name. name.now ≡ word.now) }
{
    if !is_name(word) {
        return None;
    }
    match str::from_utf8(word) {
        Ok(name) => Some(name),
        Err(_) => None,
    }
}

/// The policy that a word names, if it names one.
pub fn policy(word: &[u8]) -> Option<Policy>
    ensures { result ≡ policy_of word.now }
{
    match str::from_utf8(word) {
        Ok(word) => word.parse().ok(),
        Err(_) => None,
    }
}

/// The estimator that a word names, if it names one.
pub fn estimator(word: &[u8]) -> Option<Estimator>
    ensures { result ≡ estimator_of word.now }
{
    match str::from_utf8(word) {
        Ok(word) => word.parse().ok(),
        Err(_) => None,
    }
}
