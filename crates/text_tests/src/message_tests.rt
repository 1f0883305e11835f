//! The messages of faults, for people to read.
use crate::samples::expect_same;
use charge_book::refusal::BookRefusal;
use fq_model::config::ConfigFault;
use fq_model::event::Cause;
use fq_model::words::UnknownWord;
use program_model::fault::{ScriptKind, TraceKind};
use sched_state::{AlreadyClosed, Refused};
use std::alloc::Global;
use std::fmt::Display;
use std::process::Abort;

// Each of these faults has this message.
fn expect<D: Display>(rt: &impl Abort, alloc: Global, messages: &[(D, &str)]) {
    for (fault, wanted) in messages {
        let text = format!(in alloc; "{fault}").expect(rt, "memory for a text");
        expect_same(rt, text.as_str(), *wanted);
    }
}

#[test]
fn says_why_a_call_is_refused(rt: HostRuntime) {
    let messages = [
        (Cause::Closed, "the history is closed"),
        (Cause::Tenant(7), "no tenant has the number 7"),
        (Cause::Kind(8), "no kind has the number 8"),
        (
            Cause::Cost(0),
            "a cost or use of 0 microseconds, and it may be up to 1000000000, a declared one 1 at least",
        ),
        (Cause::Slots(9), "9 requests wait, and no more may"),
        (
            Cause::Full(10),
            "the history may have 10 entries, and lacks room for the call and all that must follow it",
        ),
        (Cause::Worker(64), "no worker has the number 64"),
        (Cause::Busy(11), "the worker runs request 11 already"),
        (Cause::NotRunning, "the worker runs nothing"),
        (
            Cause::Falling { last: 5, given: 4 },
            "a use or cost of 4 microseconds, after a use of 5 was reported",
        ),
        (
            Cause::Weight(1001),
            "a weight of 1001, and it may be 1 to the greatest of the configuration's limits",
        ),
        (
            Cause::Workers(0),
            "0 workers, and there may be 1 to as many as at the opening",
        ),
    ];
    expect(&rt, rt.alloc(), &messages);
}

#[test]
fn says_why_a_scheduler_refuses(rt: HostRuntime) {
    let closed = [(AlreadyClosed, "the history is closed already")];
    expect(&rt, rt.alloc(), &closed);
    let refused = Refused {
        job: 42,
        cause: Cause::Tenant(7),
    };
    expect(&rt, rt.alloc(), &[(refused, "no tenant has the number 7")]);
}

#[test]
fn says_why_a_book_refuses(rt: HostRuntime) {
    let messages = [
        (BookRefusal::NotRunning, "nothing runs on the worker"),
        (
            BookRefusal::CostRange(1000000001),
            "1000000001 microseconds are above 1000000000",
        ),
        (
            BookRefusal::Falling {
                last: 12,
                given: 11,
            },
            "11 microseconds are less than the 12 reported before",
        ),
    ];
    expect(&rt, rt.alloc(), &messages);
}

#[test]
fn says_what_is_wrong_with_a_configuration(rt: HostRuntime) {
    let messages = [
        (
            ConfigFault::Workers {
                count: 65,
                most: 64,
            },
            "65 workers, and there may be 1 to 64",
        ),
        (
            ConfigFault::Tenants {
                count: 0,
                most: 4096,
            },
            "0 tenants, and there may be 1 to 4096",
        ),
        (
            ConfigFault::Weight {
                tenant: 3,
                most: 1000,
            },
            "the weight of tenant 3 is not from 1 to 1000",
        ),
        (ConfigFault::Kinds(65), "65 kinds, and there may be 1 to 64"),
        (
            ConfigFault::Pairs {
                count: 65537,
                most: 65536,
            },
            "65537 pairs of a tenant and a kind, and there may be 1 to 65536",
        ),
        (
            ConfigFault::Entries {
                count: 3,
                most: 4194304,
            },
            "3 entries, and there may be 4 to 4194304",
        ),
        (
            ConfigFault::Requests {
                count: 0,
                most: 262144,
            },
            "0 requests that may wait, and there may be 1 to 262144",
        ),
        (
            ConfigFault::Initial(0),
            "0 microseconds as the initial value, and there may be 1 to 1000000000",
        ),
    ];
    expect(&rt, rt.alloc(), &messages);
}

#[test]
fn says_what_is_wrong_with_a_line(rt: HostRuntime) {
    let messages = [
        (
            ScriptKind::Header,
            "the first line does not say that this is a script, or a journal",
        ),
        (ScriptKind::Word, "a word that does not stand here"),
        (
            ScriptKind::Fields(6),
            "6 words, where the first asks for another number",
        ),
        (ScriptKind::Number(2), "word 2 is not a number"),
        (
            ScriptKind::Range(3),
            "the number at word 3 is out of its range",
        ),
        (ScriptKind::Twice, "the name is taken"),
        (
            ScriptKind::TooMany,
            "more tenants, kinds or pairs of both than there may be",
        ),
        (ScriptKind::Missing, "the text ends before its head does"),
    ];
    expect(&rt, rt.alloc(), &messages);
    expect(
        &rt,
        rt.alloc(),
        &[(UnknownWord, "no policy or estimator has this name")],
    );
}

#[test]
fn says_what_is_wrong_with_a_record(rt: HostRuntime) {
    let messages = [
        (TraceKind::NotUtf8, "a field is not UTF-8"),
        (
            TraceKind::Word,
            "a word with which no record begins, or no name",
        ),
        (
            TraceKind::Fields(5),
            "5 fields, where the first asks for another number",
        ),
        (TraceKind::Number(2), "field 2 is not a number"),
        (
            TraceKind::Range(3),
            "the number in field 3 is out of its range",
        ),
        (
            TraceKind::UnknownTenant,
            "no earlier record names the tenant",
        ),
        (TraceKind::Twice, "the name is taken"),
        (
            TraceKind::Backward,
            "the moment is before that of the request before",
        ),
        (
            TraceKind::TooMany,
            "more tenants, kinds, pairs of both or requests than there may be",
        ),
        (TraceKind::NoTenants, "the trace names no tenant"),
    ];
    expect(&rt, rt.alloc(), &messages);
}
