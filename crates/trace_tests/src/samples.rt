//! Traces that tests begin with, and a check of texts.
ghost use Rattle.program_model.specs.TraceText.{IsLawfulTrace};

use std::alloc::Global;
use std::fmt::{Debug, Display};
use std::process::Abort;
use trace_reader::reading::read;
use trace_reader::trace::Trace;

/// The trace of a text.
pub fn trace_in<R: Abort>(rt: &R, alloc: Global, text: &str) -> Trace
    ensures { IsLawfulTrace result }
{
    read(alloc, text.as_bytes()).expect(rt, "a trace")
}

/// A text was written, and is this one.
pub fn expect_text<E: Debug, R: Abort>(rt: &R, told: Result<Vec<u8>, E>, wanted: &[u8]) {
    let text = told.expect(rt, "memory for a text");
    expect_same(rt, text.as_slice(), wanted);
}

/// The two are equal.
pub fn expect_same<T: PartialEq + Debug + Drop, R: Abort>(rt: &R, told: T, wanted: T) {
    assert_eq!(rt; told, wanted);
}

/// The two are equal, in this case.
pub fn expect_same_at<D: Display + Drop, T: PartialEq + Debug + Drop, R: Abort>(
    rt: &R,
    case: D,
    told: T,
    wanted: T,
) {
    assert_eq!(rt; told, wanted, "at {case}");
}
