//! The clock of the process.
use crate::samples::expect_true;
use fq_io::{Clock, ProcessClock};
use std::process::Abort;
use std::time::Duration;
use std::{thread, time};

// How long a thread sleeps, in milliseconds.
const NAP: u64 = 20;

// The clock has gone on for as long as a thread slept, and for less than a minute.
fn expect_to_go_on<R: Abort, O: time::Clock>(rt: &R, os: &O) {
    let clock = ProcessClock::start(os);
    let begun = clock.now();
    thread::sleep(os, Duration::from_millis(NAP));
    let passed = clock.now().saturating_sub(begun);
    expect_true(rt, passed >= NAP * 1000);
    expect_true(rt, passed < 60000000);
}

#[test]
fn the_clock_goes_on_while_a_thread_sleeps(rt: HostRuntime) {
    expect_to_go_on(&rt, &rt);
}
