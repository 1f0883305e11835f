//! Traces written by hand, with their contents, and generated ones.
ghost use Rattle.program_model.specs.TraceText.{IsLawfulTrace};

use crate::samples::{expect_same, expect_same_at, expect_text, trace_in};
use program_model::trace::TraceRow;
use std::alloc::Global;
use std::process::Abort;
use trace_reader::fault::GenFault;
use trace_reader::generating::generate;
use trace_reader::printing::print;
use trace_reader::trace::Trace;

// The first kind of a trace has this name.
fn expect_first_kind<R: Abort>(rt: &R, trace: &Trace, name: &str) {
    let kinds = trace.kinds();
    assert!(rt; !kinds.is_empty());
    expect_same(rt, kinds.name(0), name);
}

// The first kind of the trace that a text says has this name.
fn expect_first_kind_in<R: Abort>(rt: &R, alloc: Global, text: &str, name: &str) {
    let trace = trace_in(rt, alloc, text);
    expect_first_kind(rt, &trace, name);
}

#[test]
fn a_trace_without_requests_has_one_kind(rt: HostRuntime) {
    expect_first_kind_in(&rt, rt.alloc(), "tenant,a,1\n", "-");
}

fn row((moment, submitter): (u64, u32), tenant: u32, (declared, cost): (u64, u64)) -> TraceRow {
    TraceRow {
        moment,
        submitter,
        tenant,
        kind: tenant,
        declared,
        cost,
    }
}

// A text that has these rows, and is printed so.
fn expect_printed<R: Abort>(rt: &R, alloc: Global, text: &str, rows: &[TraceRow], printed: &str) {
    let trace = trace_in(rt, alloc, text);
    expect_same_at(rt, text, trace.rows() == rows, true);
    expect_text(rt, print(alloc, &trace), printed.as_bytes());
}

#[test]
fn reads_and_prints_a_trace(rt: HostRuntime) {
    let rows = [
        row((0, 63), 0, (1, 1000000000)),
        row((0, 0), 1, (7, 8)),
        row((100000000000000, 5), 0, (1000000000, 1)),
    ];
    let printed = "tenant,a,1000\ntenant,b.c-D_9,2\nrequest,0,63,a,put,1,1000000000\n\
        request,0,0,b.c-D_9,get,7,8\nrequest,100000000000000,5,a,put,1000000000,1\n";
    let mixed = "tenant,a,1000\nrequest,0,63,a,put,1,1000000000\ntenant,b.c-D_9,2\n\
        request,0,0,b.c-D_9,get,7,8\nrequest,100000000000000,5,a,put,1000000000,1\n";
    expect_printed(&rt, rt.alloc(), mixed, &rows, printed);
    expect_printed(&rt, rt.alloc(), printed, &rows, printed);
}

// A generated trace.
fn generated<R: Abort>(rt: &R, alloc: Global, seed: u64, tenants: u32, requests: u32) -> Trace
    ensures { IsLawfulTrace result }
{
    generate(alloc, seed, tenants, requests).expect(rt, "a trace")
}

// One request of seed 7 is this one, of a kind of this name.
fn expect_first<R: Abort>(rt: &R, alloc: Global, tenants: u32, kind: &str, first: TraceRow) {
    let trace = generated(rt, alloc, 7, tenants, 1);
    expect_first_kind(rt, &trace, kind);
    let rows = [TraceRow { kind: 0, ..first }];
    expect_same_at(rt, tenants, trace.rows() == rows.as_slice(), true);
}

// The numbers of seed 7 begin 2442223337, 414063806, 2743600285.
#[test]
fn generates_traces(rt: HostRuntime) {
    expect_first(&rt, rt.alloc(), 1, "get", row((137, 0), 0, (500, 785)));
    expect_first(&rt, rt.alloc(), 64, "mix", row((137, 0), 62, (1000, 885)));
    expect_first(
        &rt,
        rt.alloc(),
        63,
        "scan",
        row((137, 0), 23, (50000, 50285)),
    );
}

// A generated trace of two tenants that has no requests.
fn expect_empty<R: Abort>(rt: &R, alloc: Global, printed: &str) {
    let trace = generated(rt, alloc, 1, 2, 0);
    expect_first_kind(rt, &trace, "-");
    expect_text(rt, print(alloc, &trace), printed.as_bytes());
}

#[test]
fn generates_a_trace_without_requests(rt: HostRuntime) {
    expect_empty(&rt, rt.alloc(), "tenant,t0,1\ntenant,t1,2\n");
}

// For seed 7 a trace with these numbers of tenants and requests is not generated.
fn expect_refused<R: Abort>(rt: &R, alloc: Global, tenants: u32, requests: u32, fault: GenFault) {
    let answer = generate(alloc, 7, tenants, requests).err();
    expect_same(rt, answer, Some(fault));
}

#[test]
fn generates_no_trace_out_of_range(rt: HostRuntime) {
    expect_refused(&rt, rt.alloc(), 0, 262145, GenFault::Tenants(0));
    expect_refused(&rt, rt.alloc(), 4097, 0, GenFault::Tenants(4097));
    expect_refused(&rt, rt.alloc(), 1, 262145, GenFault::Requests(262145));
}
