//! Simulations of a generated trace, over each chooser.
ghost use Rattle.program_model.specs.TraceText.{IsLawfulTrace};

use crate::samples::expect_same_at;
use eligible_index::index::IndexChooser;
use fitted_chooser::chooser::ProgramChooser;
use fq_model::config::{Estimator, Policy};
use program_model::trace::RunOptions;
use rival_policies::plain::PlainChooser;
use sched_journal::History;
use shared_order::chooser::SharedChooser;
use std::alloc::Global;
use std::process::Abort;
use tag_rules::chooser::Chooser;
use trace_reader::generating::generate;
use trace_reader::trace::Trace;
use trace_runner::runner::simulate;

// The simulated history of a trace under a policy, by a scheduler over this chooser.
fn history_by<X: Chooser + Drop, R: Abort>(
    rt: &R,
    alloc: Global,
    trace: &Trace,
    policy: Policy,
) -> History
    requires { IsLawfulTrace trace.now }
{
    let options = RunOptions {
        workers: 4,
        policy,
        estimate: Estimator::Pessimistic,
        initial: 1000,
        refresh: 10000,
    };
    simulate::<X>(alloc, trace, options).expect(rt, "memory for a simulation")
}

// A chooser serves the trace under a policy as another does.
fn expect_alike<X: Chooser + Drop, P: Chooser + Drop, R: Abort>(
    rt: &R,
    alloc: Global,
    trace: &Trace,
    policy: Policy,
)
    requires { IsLawfulTrace trace.now }
{
    let one = history_by::<X, R>(rt, alloc, trace, policy);
    let other = history_by::<P, R>(rt, alloc, trace, policy);
    expect_same_at(rt, policy, one.past() == other.past(), true);
}

// A chooser serves a generated trace as another does, under each policy.
fn expect_all_alike<X: Chooser + Drop, P: Chooser + Drop, R: Abort>(rt: &R, alloc: Global) {
    let trace = generate(alloc, 7, 64, 20000).expect(rt, "a trace");
    for policy in [
        Policy::Wfq,
        Policy::Wf2q,
        Policy::Msf2q,
        Policy::TwoDfq,
        Policy::TwoDfqPlus,
    ] {
        expect_alike::<X, P, R>(rt, alloc, &trace, policy);
    }
}

// Which chooser serves is not seen in a history.
#[test]
fn choosers_choose_alike(rt: HostRuntime) {
    expect_all_alike::<IndexChooser, PlainChooser, HostRuntime>(&rt, rt.alloc());
    expect_all_alike::<SharedChooser, PlainChooser, HostRuntime>(&rt, rt.alloc());
    expect_all_alike::<ProgramChooser, PlainChooser, HostRuntime>(&rt, rt.alloc());
}
