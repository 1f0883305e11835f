//! Sources, sinks and the clock that stands, one call after the other.
use crate::samples::{bytes_of, expect_same, expect_same_at, sink_with_room, source_of};
use fq_io::{
    Clock, ReadAllFault, Sink, Source, StdSink, StdSource, WriteFault, read_all, write_all,
};
use fq_memory::{CleanSink, CleanSource, FixedClock};
use std::alloc::Global;
use std::io::{self, ErrorKind, Read, Write};
use std::process::Abort;

// A source is read to its end so.
fn expect_read<S: Source, R: Abort>(
    rt: &R,
    alloc: Global,
    source: &mut S,
    limit: u64,
    wanted: &[u8],
) {
    let all = read_all(alloc, source, limit).expect(rt, "a whole source");
    expect_same(rt, all.as_slice(), wanted);
}

// A source is not read to its end, for this reason.
fn expect_fault<S: Source, R: Abort>(
    rt: &R,
    alloc: Global,
    source: &mut S,
    limit: u64,
    fault: ReadAllFault,
) {
    expect_same(rt, read_all(alloc, source, limit).err(), Some(fault));
}

// Each is read in pieces of 4 bytes: calls 0 to 2 give bytes, and call 3 finds the end.
fn read_in_pieces<R: Abort>(rt: &R, alloc: Global) {
    let all = "abcdefghij";
    expect_read(
        rt,
        alloc,
        &mut source_of(rt, alloc, all, 4, 9),
        10,
        all.as_bytes(),
    );
    let long = ReadAllFault::TooLong(9);
    expect_fault(rt, alloc, &mut source_of(rt, alloc, all, 4, 9), 9, long);
    let broken = ReadAllFault::ReadFault;
    expect_fault(rt, alloc, &mut source_of(rt, alloc, all, 4, 3), 10, broken);
}

#[test]
fn reading_in_pieces(rt: HostRuntime) {
    read_in_pieces(&rt, rt.alloc());
}

// Seven bytes are written in pieces of 4 to a sink with this room that fails at this call: the result and the bytes.
fn expect_written<R: Abort>(
    rt: &R,
    alloc: Global,
    room: usize,
    fail: u64,
    wanted: Result<(), WriteFault>,
    written: &str,
) {
    let mut sink = sink_with_room(rt, alloc, room, 4, fail);
    expect_same(rt, write_all(&mut sink, b"abcdefg"), wanted);
    expect_same_at(rt, written, sink.bytes(), written.as_bytes());
}

#[test]
fn writing_in_pieces(rt: HostRuntime) {
    expect_written(&rt, rt.alloc(), 7, 9, Ok(()), "abcdefg");
    expect_written(&rt, rt.alloc(), 6, 9, Err(WriteFault), "abcdef");
    expect_written(&rt, rt.alloc(), 7, 1, Err(WriteFault), "abcd");
}

// A source that never fails.
fn read_clean<R: Abort>(rt: &R, alloc: Global) {
    let mut source = CleanSource::new(bytes_of(rt, alloc, "abc"));
    expect_read(rt, alloc, &mut source, 3, b"abc");
}

#[test]
fn clean_source_gives_all(rt: HostRuntime) {
    read_clean(&rt, rt.alloc());
}

// A text is written so, and then all of this has been.
fn expect_told<R: Abort>(
    rt: &R,
    sink: &mut CleanSink,
    text: &str,
    wanted: Result<(), WriteFault>,
    written: &str,
) {
    expect_same(rt, write_all(sink, text.as_bytes()), wanted);
    expect_same_at(rt, text, sink.bytes(), written.as_bytes());
}

// A sink of four bytes that fails only where it is full.
fn fill_clean<R: Abort>(rt: &R, alloc: Global) {
    let mut sink = CleanSink::with_room(alloc, 4).expect(rt, "memory for a sink");
    expect_told(rt, &mut sink, "abc", Ok(()), "abc");
    expect_told(rt, &mut sink, "de", Err(WriteFault), "abcd");
    expect_told(rt, &mut sink, "", Ok(()), "abcd");
}

#[test]
fn clean_sink_fails_where_it_is_full(rt: HostRuntime) {
    fill_clean(&rt, rt.alloc());
}

// A pipe whose other end is gone, seen at each read and at each flush.
#[derive(Drop)]
struct Broken;

impl Read for Broken {
    fn read(&mut self, _buf: &mut [u8]) -> io::Result<usize> {
        Err(ErrorKind::BrokenPipe.into())
    }
}

impl Write for Broken {
    fn write(&mut self, buf: &[u8]) -> io::Result<usize> {
        Ok(buf.len())
    }

    fn flush(&mut self) -> io::Result<()> {
        Err(ErrorKind::BrokenPipe.into())
    }
}

// A reader of std, and one that is broken.
fn read_std<R: Abort>(rt: &R, alloc: Global) {
    expect_read(rt, alloc, &mut StdSource::new(b"abc".as_slice()), 3, b"abc");
    let broken = ReadAllFault::ReadFault;
    expect_fault(rt, alloc, &mut StdSource::new(Broken), 3, broken);
}

#[test]
fn reader_of_std(rt: HostRuntime) {
    read_std(&rt, rt.alloc());
}

// Three bytes are written to this sink so.
fn expect_abc<W: Sink, R: Abort>(rt: &R, sink: &mut W, wanted: Result<(), WriteFault>) {
    expect_same(rt, write_all(sink, b"abc"), wanted);
}

// A list takes all.
fn write_to_list<R: Abort>(rt: &R, alloc: Global) {
    let mut out = Vec::new(alloc);
    expect_abc(rt, &mut StdSink::new(&mut out), Ok(()));
    expect_same(rt, out.as_slice(), b"abc".as_slice());
}

// A writer that is full takes nothing, which is a fault.
fn write_to_two_bytes<R: Abort>(rt: &R) {
    let mut room = [0u8; 2];
    expect_abc(rt, &mut StdSink::new(room.as_mut_slice()), Err(WriteFault));
    expect_same(rt, room, *b"ab");
}

#[test]
fn writer_of_std(rt: HostRuntime) {
    write_to_list(&rt, rt.alloc());
    write_to_two_bytes(&rt);
    expect_abc(&rt, &mut StdSink::new(Broken), Err(WriteFault));
}

fn is_shared<T: Sync>(_: &T) {}

#[test]
fn clock_stands_and_is_shared(rt: HostRuntime) {
    let clock = FixedClock::new(7);
    is_shared(&clock);
    expect_same(&rt, clock.now(), 7);
}
