//! Comparisons by the program, and words for another part of it.
use crate::samples::{
    NEVER, TRACE, expect_same, expect_same_at, sink_with_room, sound_source, words_of,
};
use fq_memory::{FixedClock, MemSink};
use std::alloc::Global;
use std::process::Abort;
use std::sync::Wait;
use std::thread::Threads;
use twodfq_main::program::{compare, live, twodfq};

/// The words by which the trace of the samples is compared.
const COMPARE: &str = "compare --workers 2 --refresh 0 --slot 5";

/// Their output: under `wfq` with declared costs the long request waits for the two short requests.
const ROWS: &str = "compare 1\n\
    policy wfq estimate declared end 10 entries 10 lag 0 3\n\
    policy wfq estimate recent end 8 entries 10 lag 0 1\n\
    policy wfq estimate pessimistic end 8 entries 10 lag 0 1\n\
    policy wf2q estimate declared end 8 entries 10 lag 0 1\n\
    policy wf2q estimate recent end 8 entries 10 lag 0 1\n\
    policy wf2q estimate pessimistic end 8 entries 10 lag 0 1\n\
    policy msf2q estimate declared end 8 entries 10 lag 0 1\n\
    policy msf2q estimate recent end 8 entries 10 lag 0 1\n\
    policy msf2q estimate pessimistic end 8 entries 10 lag 0 1\n\
    policy 2dfq estimate declared end 8 entries 10 lag 0 1\n\
    policy 2dfq estimate recent end 8 entries 10 lag 0 1\n\
    policy 2dfq estimate pessimistic end 8 entries 10 lag 0 1\n\
    best wfq recent\n";

// A sink that holds all that a comparison writes.
fn wide_sink<R: Abort>(rt: &R, alloc: Global) -> MemSink {
    sink_with_room(rt, alloc, 2000, 4096, NEVER)
}

// For these words and the trace of the samples `compare` ends so.
fn expect<T: Abort + Threads + Sync>(
    rt: &T,
    alloc: Global,
    words: &str,
    status: u8,
    written: &str,
    told: &str,
) {
    let words = words_of(rt, alloc, words);
    let mut source = sound_source(rt, alloc, TRACE);
    let mut sink = wide_sink(rt, alloc);
    let mut errs = wide_sink(rt, alloc);
    let answer = compare(
        rt,
        alloc,
        words.as_slice(),
        &mut source,
        &mut sink,
        &mut errs,
    );
    expect_same_at(rt, "the status", answer, status);
    expect_same_at(rt, "the output", sink.bytes(), written.as_bytes());
    expect_same_at(rt, "the message", errs.bytes(), told.as_bytes());
}

#[test]
fn compares_a_trace(rt: HostRuntime) {
    expect(&rt, rt.alloc(), COMPARE, 0, ROWS, "");
}

#[test]
fn words_of_another_part_are_no_command_line(rt: HostRuntime) {
    let told = "twodfq: the words are not a command line\n";
    expect(&rt, rt.alloc(), "run", 2, "", told);
    expect(&rt, rt.alloc(), "live", 2, "", told);
}

// `live` takes the words of a comparison for no command line, and the whole program compares.
fn other_parts<T: Abort + Wait + Threads + Sync>(rt: &T, alloc: Global) {
    let words = words_of(rt, alloc, COMPARE);
    let mut source = sound_source(rt, alloc, TRACE);
    let mut sink = wide_sink(rt, alloc);
    let mut errs = wide_sink(rt, alloc);
    let clock = FixedClock::new(7);
    let refused = live(
        rt,
        alloc,
        words.as_slice(),
        &mut source,
        &mut sink,
        &mut errs,
        &clock,
    );
    expect_same(rt, refused, 2);
    let served = twodfq(
        rt,
        alloc,
        words.as_slice(),
        &mut source,
        &mut sink,
        &mut errs,
        &clock,
    );
    expect_same(rt, served, 0);
    expect_same(rt, sink.bytes(), ROWS.as_bytes());
}

#[test]
fn the_program_compares(rt: HostRuntime) {
    other_parts(&rt, rt.alloc());
}
