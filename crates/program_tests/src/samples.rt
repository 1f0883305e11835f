//! A script, a trace, and runs of the program over devices in memory that fail at chosen calls.
ghost use Rattle.std.specs.Prelude.{◌≤◌};

use fq_memory::{MemSink, MemSource};
use std::alloc::Global;
use std::fmt::{Debug, Display};
use std::process::Abort;
use twodfq_main::program::plain;

/// A request of one tenant, served until the scheduler is drained, and one that comes after the close. 169 bytes.
pub const SCRIPT: &str =
    "script 1\nconfig 1 2dfq declared 1000 100 10\ntenant a 1\ntenant b 1\nkind get\n\
    submit 0 0 0 0 5 7\ntake 9 0 0\ndone 9 5 0 5\ntake 9 5 0\nclose 0 5\ntake 9 5 0\nsubmit 0 5 0 0 5 8\n";

/// The replies to it.
pub const REPLIES: &str = "request 0\nrun 0 5 7\nok\nidle\nok\ndrained\nrefused closed\n";

/// Three requests of two tenants, sent by two submitters. 89 bytes.
pub const TRACE: &str =
    "tenant,a,1\ntenant,b,1\nrequest,0,0,a,scan,8,8\nrequest,0,0,b,get,2,2\nrequest,0,1,b,get,2,2\n";

/// The words that simulate a trace under two workers and report slots of 5 microseconds.
pub const RUN: &str = "run --workers 2 --estimate declared --refresh 0 --slot 5";

/// The number of no call.
pub const NEVER: u64 = 18446744073709551615;

/// The end of a run of the program: its status, its output and its message.
#[derive(Drop)]
pub struct Left {
    pub status: u8,
    pub written: MemSink,
    pub told: MemSink,
}

/// These words, as texts of their own.
pub fn owned<R: Abort>(rt: &R, alloc: Global, words: &[&str]) -> Vec<String> {
    let mut owned = Vec::new(alloc);
    for word in words {
        let text = String::from_str(alloc, word).expect(rt, "memory for a word");
        owned.push(text).expect(rt, "memory for a word");
    }
    owned
}

/// The words of a line.
pub fn words_of<R: Abort>(rt: &R, alloc: Global, line: &str) -> Vec<String> {
    let mut words = Vec::new(alloc);
    for word in line.split(' ') {
        words.push(word).expect(rt, "memory for a word");
    }
    owned(rt, alloc, words.as_slice())
}

/// The bytes of a text.
pub fn bytes_of<R: Abort>(rt: &R, alloc: Global, text: &str) -> Vec<u8> {
    text.as_bytes()
        .to_vec(alloc)
        .expect(rt, "memory for an input")
}

// A list of this number.
fn number<R: Abort>(rt: &R, alloc: Global, number: u64) -> Vec<u64> {
    let numbers = vec![in alloc; number].expect(rt, "memory for a number");
    numbers
}

/// A source that gives `piece` bytes in a call, and fails the call of this number.
pub fn source_of<R: Abort>(rt: &R, alloc: Global, input: &str, piece: usize, call: u64) -> MemSource
    requires { 1 ≤ piece }
{
    MemSource::new(bytes_of(rt, alloc, input), piece, number(rt, alloc, call))
}

/// A source that gives 16 bytes in a call, and fails the call of this number.
pub fn source_failing<R: Abort>(rt: &R, alloc: Global, input: &str, call: u64) -> MemSource {
    source_of(rt, alloc, input, 16, call)
}

/// A sink with room for `room` bytes that takes `piece` bytes in a call, and fails the call of this number.
pub fn sink_with_room<R: Abort>(
    rt: &R,
    alloc: Global,
    room: usize,
    piece: usize,
    call: u64,
) -> MemSink
    requires { 1 ≤ piece }
{
    MemSink::new(alloc, room, piece, number(rt, alloc, call)).expect(rt, "memory for a sink")
}

/// A sink with room for 1000 bytes.
pub fn sink_of<R: Abort>(rt: &R, alloc: Global, piece: usize, call: u64) -> MemSink
    requires { 1 ≤ piece }
{
    sink_with_room(rt, alloc, 1000, piece, call)
}

/// A sink that takes 4 bytes in a call, and fails the call of this number.
pub fn sink_failing<R: Abort>(rt: &R, alloc: Global, call: u64) -> MemSink {
    sink_of(rt, alloc, 4, call)
}

/// A source of these bytes that never fails.
pub fn sound_source<R: Abort>(rt: &R, alloc: Global, input: &str) -> MemSource {
    source_of(rt, alloc, input, 4096, NEVER)
}

/// A sink with room for 1000 bytes that never fails.
pub fn sound_sink<R: Abort>(rt: &R, alloc: Global) -> MemSink {
    sink_of(rt, alloc, 1000, NEVER)
}

/// Runs `plain` on these words and devices.
pub fn run_telling<R: Abort>(
    rt: &R,
    alloc: Global,
    words: &str,
    mut source: MemSource,
    mut written: MemSink,
    mut told: MemSink,
) -> Left {
    let words = words_of(rt, alloc, words);
    let status = plain(
        alloc,
        words.as_slice(),
        &mut source,
        &mut written,
        &mut told,
    );
    Left {
        status,
        written,
        told,
    }
}

/// Runs `plain` where each message can be written.
pub fn run<R: Abort>(
    rt: &R,
    alloc: Global,
    words: &str,
    source: MemSource,
    written: MemSink,
) -> Left {
    let told = sink_failing(rt, alloc, NEVER);
    run_telling(rt, alloc, words, source, written, told)
}

/// Runs `plain` on these words and an input, where the read and the write of these numbers fail.
pub fn run_failing<R: Abort>(
    rt: &R,
    alloc: Global,
    words: &str,
    input: &str,
    read: u64,
    write: u64,
) -> Left {
    let source = source_failing(rt, alloc, input, read);
    run(rt, alloc, words, source, sink_failing(rt, alloc, write))
}

/// The run stopped with this status and this message, and nothing was written. `place` is the number of the call that fails.
pub fn expect_stop<R: Abort>(rt: &R, left: &Left, status: u8, message: &str, place: u64) {
    expect_same_at(rt, place, left.status, status);
    expect_same_at(rt, place, left.written.bytes(), b"");
    expect_same_at(rt, place, left.told.bytes(), message.as_bytes());
}

/// The run wrote this number of bytes of the output, and then a write failed.
pub fn expect_part<R: Abort>(rt: &R, left: &Left, output: &str, bytes: u64) {
    let written = left.written.bytes();
    expect_same_at(rt, bytes, left.status, 5);
    expect_same(rt, written.len() as u64, bytes);
    expect_same(rt, output.as_bytes().starts_with(written), true);
    expect_same(rt, left.told.bytes(), b"twodfq: writing failed\n");
}

/// The run wrote this, without a message.
pub fn expect_written<R: Abort>(rt: &R, left: &Left, output: &str) {
    expect_same(rt, left.status, 0);
    expect_same(rt, left.written.bytes(), output.as_bytes());
    expect_same(rt, left.told.bytes(), b"");
}

/// The two are equal.
pub fn expect_same<T: PartialEq + Debug + Drop, R: Abort>(rt: &R, told: T, wanted: T) {
    assert_eq!(rt; told, wanted);
}

/// The two are equal, in this case.
pub fn expect_same_at<D: Display + Drop, T: PartialEq + Debug + Drop, R: Abort>(
    rt: &R,
    case: D,
    told: T,
    wanted: T,
) {
    assert_eq!(rt; told, wanted, "at {case}");
}
