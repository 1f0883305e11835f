//! The program over memory that never fails.
ghost use Rattle.std.specs.Prelude.{◌≡◌, ◌≢◌, [], map};
ghost use Rattle.std.specs.String.{string_bytes};
ghost use Rattle.program_model.specs.Commands.{Untold, is_plain};
ghost use Rattle.program_model.specs.Program.{asked};
ghost use Rattle.law_book.specs.Programs.{AreTextsShorter};

use crate::samples::{REPLIES, SCRIPT, bytes_of, expect_same, owned};
use fq_memory::{CleanSink, CleanSource};
use std::alloc::Global;
use std::process::Abort;
use twodfq_main::program::plain;

// Where the sink has more room than the output has bytes, neither reading nor writing can fail.
fn clean_run(
    alloc: Global,
    words: &[String],
    source: &mut CleanSource,
    sink: &mut CleanSink,
    errs: &mut CleanSink,
) -> u8
    requires written { sink.old.written ≡ [] }
    requires faults { sink.old.faults ≡ 0 }
    requires room { AreTextsShorter sink.old.room Untold (asked is_plain (map string_bytes words.now)) source.old }
    ensures reads { result ≢ 4 }
    ensures writes { result ≢ 5 }
{
    let status = plain(alloc, words, source, sink, errs);
    let _ = sink.bytes();
    status
}

// A sink with room for 1000 bytes.
fn sink_of<R: Abort>(rt: &R, alloc: Global) -> CleanSink {
    CleanSink::with_room(alloc, 1000).expect(rt, "memory for a sink")
}

// The script is served so.
fn serve<R: Abort>(rt: &R, alloc: Global) {
    let words = owned(rt, alloc, &["script"]);
    let mut source = CleanSource::new(bytes_of(rt, alloc, SCRIPT));
    let mut sink = sink_of(rt, alloc);
    let mut errs = sink_of(rt, alloc);
    let status = plain(alloc, words.as_slice(), &mut source, &mut sink, &mut errs);
    expect_same(rt, status, 0);
    expect_same(rt, sink.bytes(), REPLIES.as_bytes());
}

#[test]
fn memory_never_fails(rt: HostRuntime) {
    serve(&rt, rt.alloc());
}
