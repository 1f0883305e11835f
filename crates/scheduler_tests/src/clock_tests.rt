ghost use Rattle.std.specs.Prelude.{◌≡◌, replicate};
ghost use Rattle.virtual_clock.specs.Idles.{asleep_at_first};

use crate::samples::{configured, expect_same, send_away};
use fq_model::config::Policy;
use std::alloc::Global;
use std::process::Abort;
use virtual_clock::clock::Clock128;
use virtual_clock::idles::Idles;
use virtual_clock::times::Times;

#[test]
fn time_passes_by_the_number_of_workers(rt: HostRuntime) {
    let mut clock = Clock128::new(Policy::TwoDfq, 4);
    clock.enter(3);
    clock.staff(2);
    clock.to(1000000);
    let by_two = clock.now();
    clock.staff(3);
    clock.to(1000001);
    expect_same(&rt, [by_two, clock.now()], [699050666666, 699051715242]);
    send_away(clock);
}

fn opened<R: Abort>(rt: &R, alloc: Global) -> Idles
    ensures { result ≡ replicate 2 asleep_at_first }
{
    Idles::open(alloc, 2).expect(rt, "memory for tenants")
}

// The second of two tenants has two requests, then none, then one.
fn sleeps<R: Abort>(rt: &R, alloc: Global) {
    let mut idles = opened(rt, alloc);
    let woke = [idles.open_one(1, 100), idles.open_one(1, 150)];
    let first = idles.close_one(1, 200);
    let asleep = idles.total(1, 250);
    let last = idles.close_one(1, 300);
    let longer = idles.total(1, 350);
    let again = idles.open_one(1, 400);
    expect_same(
        rt,
        [woke[0], woke[1], first, last, again],
        [true, false, false, true, true],
    );
    let totals = [asleep, longer, idles.total(1, 500), idles.total(0, 500)];
    expect_same(rt, totals, [100, 150, 200, 500]);
    send_away(idles);
}

#[test]
fn a_tenant_sleeps_while_it_has_no_request(rt: HostRuntime) {
    sleeps(&rt, rt.alloc());
}

// The time that stands at first.
fn first_time<R: Abort>(rt: &R, alloc: Global) -> i128 {
    let config = configured(rt, alloc, Policy::TwoDfq, 1, 2);
    let times = Times::open(alloc, &config).expect(rt, "memory for times");
    let now = times.now();
    send_away(times);
    now
}

#[test]
fn times_begin_at_0(rt: HostRuntime) {
    expect_same(&rt, first_time(&rt, rt.alloc()), 0);
}
