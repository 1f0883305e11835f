//! Devices that fail at any one of their calls.
use crate::samples::{
    Left, NEVER, REPLIES, RUN, SCRIPT, TRACE, expect_part, expect_same_at, expect_stop,
    expect_written, run_failing, run_telling, sink_failing, source_failing,
};
use std::alloc::Global;
use std::process::Abort;

const SIMULATED: &str =
    "journal 1\nconfig 2 2dfq declared 1000 10 3\ntenant a 1\ntenant b 1\nkind scan\nkind get\n\
    submit 0 0 0 0 0 8 0\nsubmit 0 0 1 1 1 2 1\nsubmit 1 0 2 1 1 2 2\ntake 2 0 0 1 2\ntake 3 0 1 0 8\n\
    done 2 2 0 1 2\ntake 2 2 0 2 2\ndone 2 4 0 2 2\ndone 3 8 1 0 8\nclose 0 8\n\
    report 1\nslot 5 slots 2\ntenant a weight 1 requests 1 charged 8 fluid 8 lag 0 0 1 1 1\n\
    tenant b weight 1 requests 2 charged 4 fluid 4 lag 0 0 0 0 0\nend 8 entries 10\n";

// A burst of two requests, and one that comes later: 80 bytes.
const BURST: &str =
    "tenant,a,1\nrequest,0,0,a,get,3,3\nrequest,0,0,a,get,3,3\nrequest,1000,0,a,get,2,2\n";

// It is shaped by a bucket that holds 4 tokens and gains 2 in 1000 microseconds: 83 bytes.
const SPREAD: &str =
    "tenant,a,1\nrequest,0,0,a,get,3,3\nrequest,1000,0,a,get,3,3\nrequest,2000,0,a,get,2,2\n";

// A journal without an entry.
const JOURNAL: &str = "journal 1\nconfig 1 2dfq declared 1000 100 10\ntenant a 1\nkind get\n";

// The output takes this number of writes of 4 bytes. Where a write fails, the bytes of the earlier writes stay written.
fn writes_fail<R: Abort>(
    rt: &R,
    alloc: Global,
    words: &str,
    input: &str,
    output: &str,
    writes: u32,
) {
    for call in 0..writes {
        let left = run_failing(rt, alloc, words, input, NEVER, call as u64);
        expect_part(rt, &left, output, 4 * call as u64);
    }
    let left = run_failing(rt, alloc, words, input, NEVER, writes as u64);
    expect_written(rt, &left, output);
}

#[test]
fn each_write_fails(rt: HostRuntime) {
    writes_fail(&rt, rt.alloc(), "script", SCRIPT, REPLIES, 14);
    writes_fail(&rt, rt.alloc(), RUN, TRACE, SIMULATED, 103);
    let words = "gen --seed 1 --tenants 2 --requests 0";
    writes_fail(&rt, rt.alloc(), words, "", "tenant,t0,1\ntenant,t1,2\n", 6);
    let words = "shape --rate 2 --burst 4";
    writes_fail(&rt, rt.alloc(), words, BURST, SPREAD, 21);
    writes_fail(&rt, rt.alloc(), "check", JOURNAL, "legal entries 0\n", 4);
}

// The input takes this number of reads of 16 bytes, the last of which finds its end.
fn reads_fail<R: Abort>(rt: &R, alloc: Global, words: &str, input: &str, reads: u32) {
    for call in 0..reads {
        let left = run_failing(rt, alloc, words, input, call as u64, NEVER);
        expect_stop(rt, &left, 4, "twodfq: reading failed\n", call as u64);
    }
    let left = run_failing(rt, alloc, words, input, reads as u64, NEVER);
    expect_same_at(rt, words, left.status, 0);
}

#[test]
fn each_read_fails(rt: HostRuntime) {
    reads_fail(&rt, rt.alloc(), "script", SCRIPT, 12);
    reads_fail(&rt, rt.alloc(), RUN, TRACE, 7);
    reads_fail(&rt, rt.alloc(), "shape --rate 2 --burst 4", BURST, 6);
}

// A run of a trace whose last row comes too early, where no message can be written.
fn run_untold<R: Abort>(rt: &R, alloc: Global) -> Left {
    let trace = "tenant,a,1\ntenant,b,2\nrequest,10,0,a,get,5,5\nrequest,30,0,b,get,5,5\n\
        request,20,0,a,get,5,5\n";
    let source = source_failing(rt, alloc, trace, NEVER);
    let written = sink_failing(rt, alloc, NEVER);
    run_telling(
        rt,
        alloc,
        "run",
        source,
        written,
        sink_failing(rt, alloc, 0),
    )
}

// Where the message can't be written, the status stays that of the fault that it names.
#[test]
fn telling_fails(rt: HostRuntime) {
    let left = run_untold(&rt, rt.alloc());
    expect_stop(&rt, &left, 3, "", 0);
}
