//! The program as a library: one part of it, and the whole with a clock.
use crate::samples::{REPLIES, SCRIPT, expect_same, owned, sound_sink, sound_source};
use fq_io::read_all;
use fq_memory::FixedClock;
use std::alloc::Global;
use std::process::Abort;
use std::sync::Wait;
use std::thread::Threads;
use twodfq_main::program::{plain, twodfq};

// For these words and this input `plain` ends with this status and message. Of the input this is left, unread.
fn expect_stop<R: Abort>(
    rt: &R,
    alloc: Global,
    words: &[&str],
    input: &str,
    wanted: u8,
    message: &str,
    left: &str,
) {
    let words = owned(rt, alloc, words);
    let mut source = sound_source(rt, alloc, input);
    let mut written = sound_sink(rt, alloc);
    let mut told = sound_sink(rt, alloc);
    let status = plain(
        alloc,
        words.as_slice(),
        &mut source,
        &mut written,
        &mut told,
    );
    expect_same(rt, status, wanted);
    expect_same(rt, written.bytes(), b"".as_slice());
    expect_same(rt, told.bytes(), message.as_bytes());
    let rest = read_all(alloc, &mut source, 1000).expect(rt, "the rest of a source");
    expect_same(rt, rest.as_slice(), left.as_bytes());
}

// The words are no command line for `plain`, and the input is not read.
fn expect_no_command<R: Abort>(rt: &R, alloc: Global, words: &[&str]) {
    let message = "twodfq: the words are not a command line\n";
    expect_stop(rt, alloc, words, SCRIPT, 2, message, SCRIPT);
}

// These words leave the input unread, and so do `live` and `compare`: `plain` serves only commands without threads.
#[test]
fn words_of_no_command_leave_the_input(rt: HostRuntime) {
    expect_no_command(&rt, rt.alloc(), &[]);
    expect_no_command(&rt, rt.alloc(), &["script", "--help"]);
    expect_no_command(&rt, rt.alloc(), &["live"]);
    expect_no_command(&rt, rt.alloc(), &["compare"]);
}

// The input is read to its end, also where its first line has a fault.
#[test]
fn a_faulty_input_is_read_whole(rt: HostRuntime) {
    let message = "twodfq: line 1: not a script\n";
    let input = "journal 1\nconfig 1 2dfq declared 1000 100 10\ntenant a 1\nkind get\n";
    expect_stop(
        &rt,
        rt.alloc(),
        &["script", "--print", "both"],
        input,
        3,
        message,
        "",
    );
}

// The whole program serves the script, by a clock that stands at 7.
fn serve<T: Abort + Wait + Threads + Sync>(rt: &T, alloc: Global) {
    let words = owned(rt, alloc, &["script"]);
    let mut source = sound_source(rt, alloc, SCRIPT);
    let mut written = sound_sink(rt, alloc);
    let mut told = sound_sink(rt, alloc);
    let clock = FixedClock::new(7);
    let status = twodfq(
        rt,
        alloc,
        words.as_slice(),
        &mut source,
        &mut written,
        &mut told,
        &clock,
    );
    expect_same(rt, status, 0);
    expect_same(rt, written.bytes(), REPLIES.as_bytes());
    expect_same(rt, told.bytes(), b"".as_slice());
}

#[test]
fn serves_with_a_clock(rt: HostRuntime) {
    serve(&rt, rt.alloc());
}
