ghost use Rattle.std.specs.Prelude.{◌≤◌};

use crate::choosers::{expect_lesser_first, expect_resized, opened};
use crate::samples::expect_same;
use fitted_chooser::chooser::{FittedChooser, ProgramChooser};
use fq_model::config::Policy;
use fq_model::limits::MOST_WORKERS;
use std::alloc::Global;
use std::process::Abort;

// Whether the program's chooser looks at each head with this number of workers and of tenants.
fn looks_at_each<R: Abort>(rt: &R, alloc: Global, workers: u32, tenants: u32) -> bool
    requires low { 1 ≤ workers }
    requires high { workers ≤ MOST_WORKERS }
{
    let chooser = opened::<ProgramChooser, R>(rt, alloc, Policy::TwoDfq, workers, tenants);
    let looks_at_each = matches!(&chooser, FittedChooser::ForFew(_));
    drop(chooser);
    looks_at_each
}

#[test]
fn each_of_few_heads(rt: HostRuntime) {
    let told = [
        looks_at_each(&rt, rt.alloc(), 4, 1),
        looks_at_each(&rt, rt.alloc(), 4, 16),
        looks_at_each(&rt, rt.alloc(), 64, 16),
        looks_at_each(&rt, rt.alloc(), 4, 17),
        looks_at_each(&rt, rt.alloc(), 1, 4096),
    ];
    expect_same(&rt, told, [true, true, true, false, false]);
}

#[test]
fn few_are_resized(rt: HostRuntime) {
    expect_resized::<ProgramChooser, HostRuntime>(&rt, rt.alloc());
}

#[test]
fn equal_finishes_of_few(rt: HostRuntime) {
    expect_lesser_first::<ProgramChooser, HostRuntime>(&rt, rt.alloc());
}
