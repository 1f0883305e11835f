//! Virtual time, in worked numbers.
use std::process::Abort;
use vt_fixed::limits::{GREATEST_COST, GREATEST_LENGTH};
use vt_fixed::{advance, decay, length, part};

// Lengths and parts are rounded so.
fn expect_lengths<R: Abort>(rt: &R) {
    assert!(rt; length(1, 3) == 349526);
    assert!(rt; length(GREATEST_COST, 1) == GREATEST_LENGTH);
    assert!(rt; part(GREATEST_LENGTH, 63, 64) == 1032192000000000);
}

// Advances and decays are rounded so.
fn expect_advances<R: Abort>(rt: &R) {
    assert!(rt; advance(1, 1, 3) == 349525);
    assert!(rt; advance(5, 4, 0) == 0);
    assert!(rt; decay(1) == 0);
}

#[test]
fn worked_values(rt: HostRuntime) {
    expect_lengths(&rt);
    expect_advances(&rt);
}
