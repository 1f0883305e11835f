//! A credit over some time, worked by hand, in millionths of a microsecond.
ghost use Rattle.std.specs.Prelude.{◌≡◌, ◌<◌, ◌≤◌};

use crate::credit::{Credit, Passed};
use crate::rule::Budget;
use std::process::Abort;

// This is left of a credit after some time.
fn expect_after<R: Abort>(rt: &R, credit: &mut Credit, passed: Passed, wanted: u64)
    requires in_order { credit.old.moment ≤ passed.moment }
    requires moment { passed.moment ≤ 1000000000000000 }
    requires running { passed.running ≤ 4096 }
    requires declining { passed.declining ≤ 4096 }
    ensures { credit.new.moment ≡ passed.moment }
{
    credit.passed(passed);
    assert!(rt; credit.budget().credit == wanted);
}

// This is left of a credit once there are so many workers.
fn expect_with<R: Abort>(rt: &R, credit: &mut Credit, workers: u32, wanted: u64)
    requires { workers ≤ 4096 }
    ensures { credit.new.moment ≡ credit.old.moment }
{
    credit.set_workers(workers);
    let budget = credit.budget();
    assert!(rt; budget.credit == wanted);
    assert!(rt; budget.workers == workers);
}

// So many requests ran up to this moment, and no worker declined.
fn ran(moment: u64, running: u32) -> Passed
    ensures { result ≡ record { moment = moment; running = running; declining = 0; asked_again = 0 } }
{
    Passed {
        moment,
        running,
        declining: 0,
        asked_again: 0,
    }
}

// So many workers declined up to this moment, and were to be asked again at another one.
fn declined(moment: u64, declining: u32, asked_again: u64) -> Passed
    ensures { result ≡ record { moment = moment; running = 0; declining = declining; asked_again = asked_again } }
{
    Passed {
        moment,
        running: 0,
        declining,
        asked_again,
    }
}

// Four workers decline for a millisecond, and the process stalls for ten seconds: they pay for a millisecond more than
// they meant to, 8,000,000,000 in all.
#[test]
fn stalls_are_no_debt(rt: HostRuntime) {
    let mut credit = Credit::open(20000, 16);
    expect_after(&rt, &mut credit, declined(10000000, 4, 1000), 312000000000);
    expect_after(&rt, &mut credit, declined(20000000, 4, 1000), 312000000000);
}

// A timer that is half a millisecond late is charged.
#[test]
fn late_timers_are_charged(rt: HostRuntime) {
    let mut credit = Credit::open(20000, 16);
    expect_after(&rt, &mut credit, declined(400, 4, 1000), 318400000000);
    expect_after(&rt, &mut credit, declined(1500, 4, 1000), 314000000000);
}

// The cap is 320,000,000,000. What is earned beyond it is lost, also where it comes with what is spent.
#[test]
fn credit_ends_at_the_cap(rt: HostRuntime) {
    let mut credit = Credit::open(20000, 16);
    expect_after(&rt, &mut credit, ran(1000000, 16), 320000000000);
    let both = Passed {
        moment: 1001000,
        running: 12,
        declining: 4,
        asked_again: 1001000,
    };
    expect_after(&rt, &mut credit, both, 316000000000);
    expect_after(&rt, &mut credit, ran(1011000, 16), 319200000000);
    expect_after(&rt, &mut credit, ran(1000000000000000, 1), 320000000000);
}

// A credit of 62 microseconds is spent for 1,063: what is missing then comes back at 62 a microsecond.
#[test]
fn debts_are_paid(rt: HostRuntime) {
    let mut credit = Credit::open(62, 1);
    expect_after(&rt, &mut credit, declined(1063, 1, 63), 0);
    expect_after(&rt, &mut credit, ran(16146224, 1), 0);
    expect_after(&rt, &mut credit, ran(16146225, 1), 44);
}

// More workers don't add to the credit, and fewer lower it to their cap. They leave a debt as it is.
#[test]
fn workers_change(rt: HostRuntime) {
    let mut credit = Credit::open(20000, 4);
    expect_with(&rt, &mut credit, 16, 80000000000);
    expect_after(&rt, &mut credit, ran(1000000, 4), 160000000000);
    expect_with(&rt, &mut credit, 2, 40000000000);
    expect_with(&rt, &mut credit, 4, 40000000000);
    let mut debt = Credit::open(62, 1);
    expect_after(&rt, &mut debt, declined(1063, 1, 63), 0);
    expect_with(&rt, &mut debt, 0, 0);
    expect_with(&rt, &mut debt, 2, 0);
    expect_after(&rt, &mut debt, ran(16146225, 1), 44);
}

// So many workers are asked again after this pause, with this credit.
fn expect_pause<R: Abort>(rt: &R, credit: u64, declining: u32, wanted: u64)
    requires { 0 < declining }
{
    let budget = Budget {
        idle_ppm: 20000,
        workers: 16,
        credit,
    };
    assert!(rt; budget.pause(declining) == wanted);
}

// A pause is from 61 microseconds to 1,000, the credit of each and one more.
#[test]
fn pauses_have_ends(rt: HostRuntime) {
    expect_pause(&rt, 0, 1, 61);
    expect_pause(&rt, 60999999, 1, 61);
    expect_pause(&rt, 61000000, 1, 62);
    expect_pause(&rt, 185999999, 3, 62);
    expect_pause(&rt, 186000000, 3, 63);
    expect_pause(&rt, 997999999, 1, 998);
    expect_pause(&rt, 998000000, 1, 999);
    expect_pause(&rt, 999000000, 1, 1000);
    expect_pause(&rt, 1000000000, 1, 1000);
    expect_pause(&rt, 320000000000, 16, 1000);
}
