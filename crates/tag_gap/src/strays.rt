//! Strays: requests that are not as declared.
ghost use Rattle.std.specs.Prelude.{◌≡◌, ◌<◌, length};
ghost use Rattle.fq_model.specs.declared.config.Estimator.TheVariants as Estimator;
ghost use Rattle.fq_model.specs.History.{history_of};
ghost use Rattle.fq_model.specs.Gap.{not_declared};
ghost use Rattle.fq_model.specs.Limits.{InLimits};
ghost use Rattle.fq_model.specs.Rules.{IsLegal};
ghost use Rattle.tag_gap.specs.Asked.{AreAsked};
ghost use Rattle.tag_gap.specs.Strays.{IsKnown, declared_of, stray, lesser};

use crate::asked::Asked;
use fq_model::config::{Checked, Estimator};
use fq_model::event::{Act, Entry};

/// The least request that is not as declared: estimates are not the declared numbers, or it used more, or cost another.
pub fn not_declared(past: &[Entry], config: &Checked, asked: &[Asked]) -> Option<u32>
    requires legal { IsLegal config.now (history_of past.now) }
    requires asked { AreAsked (history_of past.now) asked.now }
    ensures { result ≡ not_declared config.now (history_of past.now) }
{
    match config.estimate() {
        Estimator::Declared => least_stray(past, config, asked),
        Estimator::Recent | Estimator::Pessimistic if asked.is_empty() => None,
        Estimator::Recent | Estimator::Pessimistic => Some(0),
    }
}

// The least request that is not as declared, where estimates are the declared numbers.
fn least_stray(past: &[Entry], config: &Checked, asked: &[Asked]) -> Option<u32>
    requires legal { IsLegal config.now (history_of past.now) }
    requires asked { AreAsked (history_of past.now) asked.now }
    requires declared { config.now.estimate ≡ Estimator.Declared }
    requires limits { InLimits config.now }
    ensures { result ≡ not_declared config.now (history_of past.now) }
{
    let mut least = None;
    for entry in past {
        least = lesser(least, stray(entry, asked));
    }
    least
}

// The request that this entry shows not to be as declared, if it does.
fn stray(entry: &Entry, asked: &[Asked]) -> Option<u32>
    requires { IsKnown entry.now.act (length asked.now) }
    ensures { result ≡ stray asked.now entry.now.act }
{
    match entry.act {
        Act::Report { request, used, .. } if used > declared_of(asked, request) => Some(request),
        Act::Done { request, cost, .. } if cost != declared_of(asked, request) => Some(request),
        _ => None,
    }
}

// The declared cost of a request, in microseconds.
fn declared_of(asked: &[Asked], request: u32) -> u64
    requires { request < length asked.now }
    ensures { result ≡ declared_of asked.now request }
{
    asked[request as usize].declared
}

// The lesser of the numbers that are there.
fn lesser(a: Option<u32>, b: Option<u32>) -> Option<u32>
    ensures { result ≡ lesser a b }
{
    match (a, b) {
        (Some(x), Some(y)) => Some(x.min(y)),
        (None, found) => found,
        (found, None) => found,
    }
}
