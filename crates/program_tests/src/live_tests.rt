//! A pool of threads whose trace can't be read, or whose journal can't be written.
use crate::samples::{
    Left, NEVER, TRACE, expect_same, expect_same_at, expect_stop, sink_failing, source_failing,
    words_of,
};
use fq_memory::FixedClock;
use std::alloc::Global;
use std::process::Abort;
use std::sync::Wait;
use std::thread::Threads;
use twodfq_main::program::live;

// Serves the trace at the moment 7, where the read and the write of these numbers fail.
fn serve<T: Abort + Wait + Threads + Sync>(
    rt: &T,
    alloc: Global,
    failing_read: u64,
    failing_write: u64,
) -> Left {
    let words = words_of(rt, alloc, "live --workers 2 --refresh 0 --print journal");
    let mut source = source_failing(rt, alloc, TRACE, failing_read);
    let mut written = sink_failing(rt, alloc, failing_write);
    let mut told = sink_failing(rt, alloc, NEVER);
    let status = live(
        rt,
        alloc,
        words.as_slice(),
        &mut source,
        &mut written,
        &mut told,
        &FixedClock::new(7),
    );
    Left {
        status,
        written,
        told,
    }
}

// The trace takes this number of reads of 16 bytes, the last of which finds its end.
fn reads_fail<T: Abort + Wait + Threads + Sync>(rt: &T, alloc: Global, reads: u32) {
    for call in 0..reads {
        let left = serve(rt, alloc, call as u64, NEVER);
        expect_stop(rt, &left, 4, "twodfq: reading failed\n", call as u64);
    }
}

#[test]
fn each_read_fails(rt: HostRuntime) {
    reads_fail(&rt, rt.alloc(), 7);
}

// The journal takes this number of writes of 4 bytes, whatever the threads do.
fn writes_fail<T: Abort + Wait + Threads + Sync>(rt: &T, alloc: Global, writes: u32) {
    for call in 0..writes {
        let left = serve(rt, alloc, NEVER, call as u64);
        expect_same_at(rt, call, left.status, 5);
        expect_same(rt, left.written.bytes().len() as u64, 4 * call as u64);
        expect_same(
            rt,
            left.told.bytes(),
            b"twodfq: writing failed\n".as_slice(),
        );
    }
    let left = serve(rt, alloc, NEVER, writes as u64);
    expect_same(rt, left.status, 0);
}

// The journal has 87 bytes before its entries and 118 in its Submits, Dones and Close. The first Takes of the tenants,
// at the estimate 1000, have 18 each; the last has 18, or 17 where it comes after a Done and its estimate fell to 990.
// So there are 65 writes of 4 bytes.
#[test]
fn each_write_fails(rt: HostRuntime) {
    writes_fail(&rt, rt.alloc(), 65);
}
