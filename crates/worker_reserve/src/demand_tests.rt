//! The demand of a few ends, worked by hand.
ghost use Rattle.std.specs.Prelude.{◌≡◌, ◌≤◌, ℕ};
ghost use Rattle.worker_reserve.specs.Demand.{IsPast};

use crate::demand::{Demand, Ended};
use std::process::Abort;

// The demand of the classes below one is this, at this moment.
fn expect_below<R: Abort>(rt: &R, demand: &Demand, moment: u64, class: u32, wanted: u128)
    requires in_order { IsPast demand.now moment }
    requires class { class ≤ 30 }
{
    assert!(rt; demand.below(class, moment) == wanted);
}

fn ended(moment: u64, ran: u64, class: u32) -> Ended
    ensures { result ≡ record { moment = moment; ran = ran; class = class } }
{
    Ended { moment, ran, class }
}

// A request ran for a millisecond up to the last moment of the first window, and another for 200 microseconds up to the
// first moment of the second.
fn at_the_edge() -> Demand
    ensures { (moment : ℕ) → 131072 ≤ moment → IsPast result moment }
{
    let mut demand = Demand::new();
    demand.ended(ended(131071, 1000, 3));
    demand.ended(ended(131072, 200, 5));
    demand
}

// The first window counts whole at its end, and less with each microsecond of the second; the third has nothing of it.
#[test]
fn windows_fade(rt: HostRuntime) {
    let demand = at_the_edge();
    expect_below(&rt, &demand, 131072, 3, 0);
    expect_below(&rt, &demand, 131072, 4, 131072000);
    expect_below(&rt, &demand, 131072, 5, 131072000);
    expect_below(&rt, &demand, 131072, 6, 157286400);
    expect_below(&rt, &demand, 163840, 4, 98304000);
    expect_below(&rt, &demand, 163840, 30, 124518400);
    expect_below(&rt, &demand, 262143, 30, 26215400);
    expect_below(&rt, &demand, 262144, 30, 26214400);
    expect_below(&rt, &demand, 393215, 30, 200);
    expect_below(&rt, &demand, 393216, 30, 0);
}

// In its own window an end counts whole.
#[test]
fn own_window_is_whole(rt: HostRuntime) {
    let mut demand = Demand::new();
    expect_below(&rt, &demand, 131071, 30, 0);
    demand.ended(ended(0, 1000, 0));
    expect_below(&rt, &demand, 0, 0, 0);
    expect_below(&rt, &demand, 0, 1, 131072000);
    expect_below(&rt, &demand, 131071, 1, 131072000);
}

// 4,096 workers that are busy for a whole window are the greatest demand: 536,870,912 microseconds of it.
#[test]
fn demand_is_limited(rt: HostRuntime) {
    let mut demand = Demand::new();
    demand.ended(ended(131071, 536870911, 29));
    expect_below(&rt, &demand, 131071, 30, 70368744046592);
    demand.ended(ended(131071, 2, 29));
    expect_below(&rt, &demand, 131071, 30, 70368744177664);
    demand.ended(ended(131071, 18446744073709551615, 29));
    expect_below(&rt, &demand, 131071, 30, 70368744177664);
}
