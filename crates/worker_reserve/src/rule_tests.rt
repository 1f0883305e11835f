//! The rule at each of its edges, worked by hand. The demand of a worker is 17,179,869,184.
ghost use Rattle.std.specs.Prelude.{◌≤◌};
ghost use Rattle.worker_reserve.specs.Rule.{IsInRange};

use crate::rule::{Budget, Question};
use std::process::Abort;

const WORKER: u128 = 17179869184;

// A free worker declines beside these demands, of all and of visitors, or it doesn't.
fn expect_answer<R: Abort>(
    rt: &R,
    budget: Budget,
    question: Question,
    smaller: u128,
    visitors: u128,
    wanted: bool,
)
    requires budget { IsInRange budget }
    requires smaller { smaller ≤ 70368744177664 }
    requires visitors { visitors ≤ 70368744177664 }
{
    assert!(rt; budget.declines(&question, smaller, visitors) == wanted);
}

// Four workers with this credit, of which a sixteenth of all time may be idle: the cap is 250,000,000,000.
fn four(credit: u64) -> Budget
    ensures { IsInRange result }
{
    Budget {
        idle_ppm: 62500,
        workers: 4,
        credit,
    }
}

// One worker with a credit of 62,500,000,000, of which this part of all time may be idle.
fn one(idle_ppm: u32) -> Budget
    requires { idle_ppm ≤ 1000000 }
    ensures { IsInRange result }
{
    Budget {
        idle_ppm,
        workers: 1,
        credit: 62500000000,
    }
}

// So many longer requests run, and so many workers decline already.
fn beside(longer: u32, declining: u32) -> Question {
    Question {
        longer,
        declining,
        several_tenants: true,
        is_closed: false,
        small_is_eligible: false,
    }
}

// The credit has to be more than 61 microseconds of each that declines.
#[test]
fn credit_is_for_each(rt: HostRuntime) {
    expect_answer(&rt, four(61000000), beside(4, 0), WORKER, WORKER, false);
    expect_answer(&rt, four(61000001), beside(4, 0), WORKER, WORKER, true);
    expect_answer(&rt, four(183000000), beside(4, 2), WORKER, WORKER, false);
    expect_answer(&rt, four(183000001), beside(4, 2), WORKER, WORKER, true);
}

// Visitors need at least the hundredth part of a worker. One more or less tells, as a worker's units aren't hundreds.
#[test]
fn visitors_need_a_hundredth(rt: HostRuntime) {
    expect_answer(&rt, four(61000001), beside(4, 0), WORKER, 171798691, false);
    expect_answer(&rt, four(61000001), beside(4, 0), WORKER, 171798692, true);
}

// Less than a worker has to be worth a whole one: with a sixteenth of one worker's time it is from three quarters on,
// and with none of it never.
#[test]
fn a_worker_is_worth_its_part(rt: HostRuntime) {
    expect_answer(&rt, one(0), beside(1, 0), WORKER - 1, WORKER - 1, false);
    expect_answer(&rt, one(0), beside(1, 0), WORKER, WORKER, true);
    expect_answer(&rt, one(62500), beside(1, 0), 12884901887, WORKER, false);
    expect_answer(&rt, one(62500), beside(1, 0), 12884901888, WORKER, true);
}

// Four are left to small requests that keep three busy: half of the cap is not enough, and any more is.
#[test]
fn credit_is_a_worker_more_or_less(rt: HostRuntime) {
    expect_answer(
        &rt,
        four(125000000000),
        beside(0, 0),
        3 * WORKER,
        WORKER,
        false,
    );
    expect_answer(
        &rt,
        four(125000000001),
        beside(0, 0),
        3 * WORKER,
        WORKER,
        true,
    );
    expect_answer(
        &rt,
        four(125000000000),
        beside(0, 0),
        3 * WORKER + 1,
        WORKER,
        true,
    );
    expect_answer(
        &rt,
        four(125000000000),
        beside(1, 0),
        3 * WORKER,
        WORKER,
        true,
    );
}

// Nothing is declined for one tenant alone, in a closed pool, or where a small request is eligible.
#[test]
fn some_never_decline(rt: HostRuntime) {
    let asked = beside(4, 0);
    let alone = Question {
        several_tenants: false,
        ..asked
    };
    let closed = Question {
        is_closed: true,
        ..asked
    };
    let small = Question {
        small_is_eligible: true,
        ..asked
    };
    expect_answer(&rt, four(61000001), asked, WORKER, WORKER, true);
    expect_answer(&rt, four(61000001), alone, WORKER, WORKER, false);
    expect_answer(&rt, four(61000001), closed, WORKER, WORKER, false);
    expect_answer(&rt, four(61000001), small, WORKER, WORKER, false);
}
