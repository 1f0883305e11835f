//! Traces written by hand, with the moments at which their requests may come.
ghost use Rattle.fq_model.specs.Limits.{IsWithin};

use crate::samples::{expect_same_at, trace_in};
use fq_model::limits::{GREATEST_BURST, GREATEST_RATE};
use std::alloc::Global;
use std::process::Abort;
use trace_reader::printing::print;
use trace_shape::fault::ShapeFault;
use trace_shape::shaping::{moments, shape};

// The least moments of the trace that a text says.
fn expect_moments<R: Abort>(
    rt: &R,
    alloc: Global,
    text: &str,
    rate: u64,
    burst: u64,
    wanted: &[u64],
)
    requires rate { IsWithin 1 GREATEST_RATE rate }
    requires burst { IsWithin 1 GREATEST_BURST burst }
{
    let trace = trace_in(rt, alloc, text);
    let told = moments(alloc, &trace, rate, burst).expect(rt, "moments");
    expect_same_at(rt, text, told.as_slice(), wanted);
}

// How the trace that a text says is printed once it is shaped.
fn expect_shaped<R: Abort>(rt: &R, alloc: Global, text: &str, rate: u64, burst: u64, wanted: &str)
    requires rate { IsWithin 1 GREATEST_RATE rate }
    requires burst { IsWithin 1 GREATEST_BURST burst }
{
    let trace = trace_in(rt, alloc, text);
    let shaped = shape(alloc, &trace, rate, burst).expect(rt, "a shaped trace");
    let printed = print(alloc, &shaped).expect(rt, "memory for a text");
    expect_same_at(rt, text, printed.as_slice(), wanted.as_bytes());
}

// Why the trace that a text says has no moments, and is not shaped.
fn expect_fault<R: Abort>(
    rt: &R,
    alloc: Global,
    text: &str,
    rate: u64,
    burst: u64,
    wanted: ShapeFault,
)
    requires rate { IsWithin 1 GREATEST_RATE rate }
    requires burst { IsWithin 1 GREATEST_BURST burst }
{
    let trace = trace_in(rt, alloc, text);
    expect_same_at(
        rt,
        text,
        moments(alloc, &trace, rate, burst).err(),
        Some(wanted),
    );
    expect_same_at(
        rt,
        text,
        shape(alloc, &trace, rate, burst).err(),
        Some(wanted),
    );
}

const BURST: &str =
    "tenant,a,1\nrequest,0,0,a,get,3,3\nrequest,0,0,a,get,3,3\nrequest,1000,0,a,get,2,2\n";

#[test]
fn a_burst_is_spread(rt: HostRuntime) {
    expect_moments(&rt, rt.alloc(), BURST, 2, 4, &[0, 1000, 2000]);
    expect_shaped(
        &rt,
        rt.alloc(),
        BURST,
        2,
        4,
        "tenant,a,1\nrequest,0,0,a,get,3,3\nrequest,1000,0,a,get,3,3\nrequest,2000,0,a,get,2,2\n",
    );
}

#[test]
fn a_request_that_no_bucket_holds_is_told(rt: HostRuntime) {
    expect_fault(&rt, rt.alloc(), BURST, 2, 2, ShapeFault::TooBig(0));
}

#[test]
fn no_requests_stay_none(rt: HostRuntime) {
    expect_moments(&rt, rt.alloc(), "tenant,a,1\n", 1, 1, &[]);
    expect_shaped(&rt, rt.alloc(), "tenant,a,1\n", 1, 1, "tenant,a,1\n");
}

#[test]
fn each_tenant_has_a_bucket(rt: HostRuntime) {
    let text = "tenant,a,1\ntenant,b,1\nrequest,0,0,a,get,4,4\nrequest,0,0,b,get,4,4\n";
    expect_moments(&rt, rt.alloc(), text, 1, 4, &[0, 0]);
    expect_shaped(&rt, rt.alloc(), text, 1, 4, text);
}
