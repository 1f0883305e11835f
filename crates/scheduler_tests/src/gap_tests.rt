ghost use Rattle.std.specs.Prelude.{◌≡◌};
ghost use Rattle.fq_model.specs.History.{history_of};
ghost use Rattle.fq_model.specs.Rules.{IsLegal};
ghost use Rattle.fq_model.specs.declared.event.Act.TheVariants as act;
ghost use Rattle.scheduler_tests.specs.Gaps.{gap_config};

use fq_model::config::{Checked, Config, Estimator, Policy};
use fq_model::event::{Act, Entry};
use std::alloc::Global;
use std::process::Abort;
use tag_difference::fault::GapFault;
use tag_difference::gap::Gap;
use tag_gap::gaps::tag_gap;
use test_samples::sample_config;

// Two tenants, the first of weight 1.
pub(crate) fn two_tenants<R: Abort>(
    rt: &R,
    alloc: Global,
    workers: u32,
    weight: u32,
    policy: Policy,
    estimate: Estimator,
) -> Checked
    ensures { result ≡ gap_config workers weight policy estimate }
{
    let weights = vec![in alloc; 1, weight].expect(rt, "memory for weights");
    let config = Config {
        workers,
        kinds: 2,
        policy,
        estimate,
        initial: 990,
        ..sample_config(weights)
    };
    config.check().expect(rt, "numbers in their limits")
}

// The gap of one tenant above another in a history, or its fault.
fn expect_told<R: Abort>(
    rt: &R,
    alloc: Global,
    config: &Checked,
    past: &[Entry],
    rows: &[(u32, u32, Result<Option<Gap>, GapFault>)],
)
    requires { IsLegal config.now (history_of past.now) }
{
    for (f, g, wanted) in rows {
        let told = tag_gap(alloc, past, config, *f, *g);
        assert_eq!(rt; told, *wanted, "of {f} above {g}");
    }
}

// The gaps in a history with those tenants.
fn expect_gaps<R: Abort>(
    rt: &R,
    alloc: Global,
    workers: u32,
    weight: u32,
    policy: Policy,
    estimate: Estimator,
    past: &[Entry],
    rows: &[(u32, u32, Result<Option<Gap>, GapFault>)],
)
    requires { IsLegal (gap_config workers weight policy estimate) (history_of past.now) }
{
    let config = two_tenants(rt, alloc, workers, weight, policy, estimate);
    expect_told(rt, alloc, &config, past, rows);
}

// An entry of caller 0, with this act, and with a Submit, a Take and a Done.
pub(crate) fn at(moment: u64, act: Act) -> Entry
    ensures { result ≡ record { who = 0; moment = moment; act = act } }
{
    Entry {
        who: 0,
        moment,
        act,
    }
}

pub(crate) fn submit(moment: u64, request: u32, tenant: u32, declared: u64) -> Entry
    ensures { result ≡ record { who = 0; moment = moment; act = act.Submit request tenant 0 declared 0 } }
{
    at(
        moment,
        Act::Submit {
            request,
            tenant,
            kind: 0,
            declared,
            label: 0,
        },
    )
}

pub(crate) fn take(moment: u64, worker: u32, request: u32, estimate: u64) -> Entry
    ensures { result ≡ record { who = 0; moment = moment; act = act.Take worker request estimate } }
{
    at(
        moment,
        Act::Take {
            worker,
            request,
            estimate,
        },
    )
}

pub(crate) fn done(moment: u64, worker: u32, request: u32, cost: u64) -> Entry
    ensures { result ≡ record { who = 0; moment = moment; act = act.Done worker request cost } }
{
    at(
        moment,
        Act::Done {
            worker,
            request,
            cost,
        },
    )
}

fn gap(largest: i128, bound: i128) -> Result<Option<Gap>, GapFault> {
    Ok(Some(Gap { largest, bound }))
}

#[test]
fn two_workers_stagger(rt: HostRuntime) {
    let past = [
        submit(0, 0, 0, 8),
        submit(0, 1, 1, 2),
        submit(0, 2, 1, 2),
        take(0, 0, 1, 2),
        take(0, 1, 0, 8),
        done(2, 0, 1, 2),
        take(2, 0, 2, 2),
        done(4, 0, 2, 2),
        done(8, 1, 0, 8),
        at(8, Act::Close),
    ];
    let rows = [
        (1, 0, gap(2097152, 16777216)),
        (0, 1, gap(0, 16777216)),
        (0, 0, Err(GapFault::SameTenant)),
        (2, 0, Err(GapFault::UnknownTenant(2))),
        (0, 2, Err(GapFault::UnknownTenant(2))),
        (3, 2, Err(GapFault::UnknownTenant(3))),
    ];
    let policy = Policy::TwoDfq;
    expect_gaps(
        &rt,
        rt.alloc(),
        2,
        1,
        policy,
        Estimator::Declared,
        &past,
        &rows,
    );
}

#[test]
fn estimates_are_not_declared(rt: HostRuntime) {
    let past = [
        submit(0, 0, 0, 1),
        submit(0, 1, 0, 1),
        take(0, 0, 0, 990),
        submit(0, 2, 1, 1),
        done(3, 0, 0, 3),
        take(3, 0, 2, 990),
        done(993, 0, 2, 990),
        submit(993, 3, 1, 1),
        take(993, 0, 1, 980),
    ];
    let rows = [(0, 1, Err(GapFault::NotDeclared(0)))];
    let policy = Policy::TwoDfq;
    expect_gaps(
        &rt,
        rt.alloc(),
        1,
        2,
        policy,
        Estimator::Pessimistic,
        &past,
        &rows,
    );
}

#[test]
fn each_weight_had_counts(rt: HostRuntime) {
    let past = [
        submit(0, 0, 0, 8),
        submit(0, 1, 1, 4),
        at(
            0,
            Act::Weight {
                tenant: 0,
                weight: 4,
            },
        ),
        submit(0, 2, 0, 8),
        take(0, 0, 0, 8),
    ];
    let rows = [(0, 1, gap(2097152, 8388608))];
    expect_gaps(
        &rt,
        rt.alloc(),
        1,
        1,
        Policy::Wfq,
        Estimator::Declared,
        &past,
        &rows,
    );
}
