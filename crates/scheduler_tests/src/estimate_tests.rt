ghost use Rattle.std.specs.Prelude.{◌≡◌, ◌<◌, length};

use crate::samples::{expect_same_at, send_away};
use cost_estimate::any::AnyCost;
use cost_estimate::declared::DeclaredCost;
use cost_estimate::estimate::Estimate;
use cost_estimate::pessimistic::PessimisticCost;
use cost_estimate::recent::RecentCost;
use fq_model::config::{Checked, Config, Estimator};
use std::alloc::Global;
use std::marker::Send;
use std::process::Abort;
use test_samples::sample_config;

// Two tenants, two kinds and the initial value 1000.
fn two_by_two<R: Abort>(rt: &R, alloc: Global, estimate: Estimator) -> Checked
    ensures tenants { length result.weights ≡ 2 }
    ensures kinds { result.kinds ≡ 2 }
{
    let weights = vec![in alloc; 1, 1].expect(rt, "memory for weights");
    let config = Config {
        kinds: 2,
        estimate,
        ..sample_config(weights)
    };
    config.check().expect(rt, "numbers in their limits")
}

// An estimator for those.
fn opened<E: Estimate, R: Abort>(rt: &R, alloc: Global, estimate: Estimator) -> E
    ensures tenants { E.tenants result ≡ 2 }
    ensures kinds { E.kinds result ≡ 2 }
{
    let config = two_by_two(rt, alloc, estimate);
    E::open(alloc, &config).expect(rt, "memory for costs")
}

// The estimate of a request whose declared cost is 7 is this.
fn expect_now<E: Estimate, R: Abort>(rt: &R, estimator: &E, tenant: u32, kind: u32, wanted: u64)
    requires tenant { tenant < E.tenants estimator.now }
    requires kind { kind < E.kinds estimator.now }
{
    assert_eq!(rt;
        estimator.now(tenant, kind, 7),
        wanted,
        "of {tenant} and {kind}"
    );
}

// The estimator learns these costs of tenant 1 and kind 1, and has this estimate after each.
fn expect_learned<E: Estimate, R: Abort>(rt: &R, estimator: &mut E, rows: &[(u16, u64)])
    requires tenant { 1 < E.tenants estimator.old }
    requires kind { 1 < E.kinds estimator.old }
    ensures tenants { E.tenants estimator.new ≡ E.tenants estimator.old }
    ensures kinds { E.kinds estimator.new ≡ E.kinds estimator.old }
{
    for (cost, wanted) in rows {
        estimator.learn(1, 1, u64::from(*cost));
        expect_same_at(rt, cost, estimator.now(1, 1, 7), *wanted);
    }
}

// The estimates: this one first, these after each cost, and the first still for other tenants and kinds.
fn expect_estimates<E: Estimate + Drop + Send, R: Abort>(
    rt: &R,
    alloc: Global,
    estimate: Estimator,
    first: u64,
    rows: &[(u16, u64)],
) {
    let mut estimator = opened::<E, R>(rt, alloc, estimate);
    expect_now(rt, &estimator, 1, 1, first);
    expect_learned(rt, &mut estimator, rows);
    expect_now(rt, &estimator, 0, 1, first);
    expect_now(rt, &estimator, 1, 0, first);
    send_away(estimator);
}

#[test]
fn pessimistic_costs_decay(rt: HostRuntime) {
    let rows = [(500, 990), (3, 980)];
    let named = Estimator::Pessimistic;
    expect_estimates::<PessimisticCost, HostRuntime>(&rt, rt.alloc(), named, 1000, &rows);
}

#[test]
fn recent_costs_are_the_last_eight(rt: HostRuntime) {
    let rows = [
        (1, 1),
        (2, 1),
        (3, 2),
        (4, 2),
        (5, 3),
        (6, 3),
        (7, 4),
        (8, 4),
        (9, 5),
    ];
    let named = Estimator::Recent;
    expect_estimates::<RecentCost, HostRuntime>(&rt, rt.alloc(), named, 1000, &rows);
}

#[test]
fn declared_costs_are_taken(rt: HostRuntime) {
    let named = Estimator::Declared;
    expect_estimates::<DeclaredCost, HostRuntime>(&rt, rt.alloc(), named, 7, &[(500, 7)]);
}

// The estimator of the configuration has the first estimate, and after a cost of 500 the second.
fn expect_named<R: Abort>(rt: &R, alloc: Global, named: Estimator, first: u64, second: u64) {
    expect_estimates::<AnyCost, R>(rt, alloc, named, first, &[(500, second)]);
}

#[test]
fn the_configuration_names_the_estimator(rt: HostRuntime) {
    expect_named(&rt, rt.alloc(), Estimator::Declared, 7, 7);
    expect_named(&rt, rt.alloc(), Estimator::Recent, 1000, 500);
    expect_named(&rt, rt.alloc(), Estimator::Pessimistic, 1000, 990);
}
