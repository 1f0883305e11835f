//! Which of some rows is the best.
use crate::samples::expect_same;
use compare_all::best::best;
use fq_model::config::{Estimator, Policy};
use program_model::compare::CompareRow;

/// The least lag that a row may have, and less than the greatest by twice as much.
const LEAST: i64 = -4611686018427387904;

// A row whose lags are between these numbers.
fn row(least: i64, greatest: i64) -> CompareRow {
    CompareRow {
        policy: Policy::TwoDfq,
        estimate: Estimator::Recent,
        end: 0,
        entries: 0,
        least,
        greatest,
    }
}

#[test]
fn lags_that_lie_least_apart(rt: HostRuntime) {
    expect_same(&rt, best(&[row(0, 9), row(-3, 3), row(-7, 0)]), 1);
    expect_same(&rt, best(&[row(-7, 0), row(0, 9), row(2, 4)]), 2);
}

#[test]
fn of_equal_rows_the_first(rt: HostRuntime) {
    expect_same(&rt, best(&[row(0, 5), row(-1, 2), row(4, 7), row(0, 3)]), 1);
    expect_same(&rt, best(&[row(0, 0)]), 0);
}

#[test]
fn lags_at_their_limits(rt: HostRuntime) {
    expect_same(&rt, best(&[row(LEAST, -LEAST), row(LEAST, -LEAST - 1)]), 1);
}
