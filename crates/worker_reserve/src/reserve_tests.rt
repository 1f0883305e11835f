//! A reserve after one end, worked by hand.
ghost use Rattle.std.specs.Prelude.{◌≤◌};
ghost use Rattle.worker_reserve.specs.Demand.{IsPast};

use crate::reserve::{Finished, Reserve};
use crate::rule::{Budget, Question};
use std::process::Abort;

// A request of class 8 ran for 200 milliseconds: more than one worker is busy in a window.
fn after_one(is_visitor: bool) -> Reserve
    ensures all { IsPast result.ends 131071 }
    ensures visitors { IsPast result.visits 131071 }
{
    let mut reserve = Reserve::new();
    reserve.ended(Finished {
        moment: 131071,
        ran: 200000,
        estimate: 100,
        cost: 300,
        is_visitor,
    });
    reserve
}

// One of four workers, of which two run long requests, declines a choice of this estimate, or it doesn't.
fn expect_answer<R: Abort>(rt: &R, reserve: &Reserve, estimate: u64, wanted: bool)
    requires ends { IsPast reserve.now.ends 131071 }
    requires visits { IsPast reserve.now.visits 131071 }
    requires estimate { estimate ≤ 1000000000 }
{
    let budget = Budget {
        idle_ppm: 20000,
        workers: 4,
        credit: 80000000000,
    };
    let question = Question {
        longer: 2,
        declining: 0,
        several_tenants: true,
        is_closed: false,
        small_is_eligible: false,
    };
    assert!(rt; reserve.declines(131071, estimate, &budget, &question) == wanted);
}

// An end is small beside a choice of which an eighth is of a greater class, and counts only if it was a visitor's.
#[test]
fn visitors_are_waited_for(rt: HostRuntime) {
    let visited = after_one(true);
    expect_answer(&rt, &visited, 4095, false);
    expect_answer(&rt, &visited, 4096, true);
    let unvisited = after_one(false);
    expect_answer(&rt, &unvisited, 4096, false);
}
