//! Why the program stops, for people to read.
use crate::samples::expect_same;
use program_model::ending::{Failure, Stop};
use std::alloc::Global;
use std::process::Abort;

// Each failure has this text.
fn expect<R: Abort>(rt: &R, alloc: Global, failures: &[(Failure, &str)]) {
    for (failure, wanted) in failures {
        let text = format!(in alloc; "{failure}").expect(rt, "memory for a text");
        expect_same(rt, text.as_str(), *wanted);
    }
}

#[test]
fn says_why_it_stops(rt: HostRuntime) {
    let alloc = rt.alloc();
    let fault = String::from_str(alloc, "twodfq: line 2: field 2 is not a number\n").expect(
        &rt,
        "memory for a text",
    );
    let failures = [
        (Failure::Words, "twodfq: the words are not a command line"),
        (Failure::TooLong, "twodfq: input longer than 67108864 bytes"),
        (
            Failure::Stopped(Stop::Message {
                status: 3,
                message: fault,
            }),
            "twodfq: line 2: field 2 is not a number",
        ),
        (Failure::Reading, "twodfq: reading failed"),
        (Failure::Writing, "twodfq: writing failed"),
        (Failure::Stopped(Stop::NoMemory), "twodfq: out of memory"),
    ];
    expect(&rt, alloc, &failures);
}
