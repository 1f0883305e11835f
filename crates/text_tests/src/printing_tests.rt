//! Texts written by hand, and their contents.
use crate::samples::{expect_same, expect_text};
use fq_model::event::{Act, Cause, Entry, Reply};
use journal_text::calls::{Script, read_script};
use journal_text::printing::{entry_line, print};
use journal_text::replies::{replies_text, reply_line};
use std::alloc::Global;
use std::process::Abort;

// These replies and one more are printed so.
fn expect_replies<R: Abort>(rt: &R, alloc: Global, replies: &[Reply], more: Reply, wanted: &str) {
    let mut text = replies_text(alloc, replies).expect(rt, "memory for a text");
    reply_line(more, &mut text).expect(rt, "memory for a line");
    expect_same(rt, text.as_slice(), wanted.as_bytes());
}

#[test]
fn prints_every_reply(rt: HostRuntime) {
    let replies = [
        Reply::Request(0),
        Reply::Run {
            request: 4294967295,
            estimate: 5,
            label: 18446744073709551615,
        },
        Reply::Accepted,
        Reply::Idle,
        Reply::Drained,
        Reply::Retired(2),
        Reply::Withdrawn {
            label: 18446744073709551615,
        },
        Reply::Refused(Cause::Closed),
        Reply::Refused(Cause::Tenant(2)),
        Reply::Refused(Cause::Kind(1)),
        Reply::Refused(Cause::Cost(1000000001)),
        Reply::Refused(Cause::Slots(10)),
        Reply::Refused(Cause::Full(100)),
        Reply::Refused(Cause::Worker(64)),
        Reply::Refused(Cause::Busy(3)),
        Reply::Refused(Cause::NotRunning),
        Reply::Refused(Cause::Falling { last: 8, given: 7 }),
        Reply::Refused(Cause::Weight(1001)),
        Reply::Refused(Cause::Workers(0)),
        Reply::Refused(Cause::NotWaiting(4294967295)),
    ];
    let lines = "request 0\nrun 4294967295 5 18446744073709551615\nok\nidle\ndrained\nretired 2\n\
        withdrawn 18446744073709551615\n\
        refused closed\nrefused tenant 2\nrefused kind 1\nrefused cost 1000000001\n\
        refused slots 10\nrefused full 100\nrefused worker 64\nrefused busy 3\n\
        refused not-running\nrefused falling 8 7\nrefused weight 1001\nrefused workers 0\n\
        refused not-waiting 4294967295\nidle\n";
    expect_replies(&rt, rt.alloc(), &replies, Reply::Idle, lines);
}

const HEAD: &str =
    "config 3 msf2q pessimistic 990 100 10\ntenant a 1\ntenant b 2\nkind get\nkind put\n";

fn entry(act: Act) -> Entry {
    Entry {
        who: 7,
        moment: 20,
        act,
    }
}

// One of each act.
fn entries() -> [Entry; 8] {
    [
        entry(Act::Submit {
            request: 0,
            tenant: 1,
            kind: 1,
            declared: 5,
            label: 18446744073709551615,
        }),
        entry(Act::Take {
            worker: 2,
            request: 0,
            estimate: 990,
        }),
        entry(Act::Report {
            worker: 2,
            request: 0,
            used: 4,
        }),
        entry(Act::Done {
            worker: 2,
            request: 0,
            cost: 6,
        }),
        entry(Act::Close),
        entry(Act::Weight {
            tenant: 1,
            weight: 1000,
        }),
        entry(Act::Workers { count: 1 }),
        entry(Act::Withdraw { request: 3 }),
    ]
}

// The script that has that head and no calls.
fn without_calls<R: Abort>(rt: &R, alloc: Global) -> Script {
    let text = ["script 1\n", HEAD]
        .concat(alloc)
        .expect(rt, "memory for a text");
    read_script(alloc, text.as_bytes()).expect(rt, "a script")
}

// A journal with that head and these entries is printed so.
fn expect_journal<R: Abort>(
    rt: &R,
    alloc: Global,
    past: &[Entry],
    version: &str,
    wanted: &str,
    changes: &str,
) {
    let script = without_calls(rt, alloc);
    let text = print(
        alloc,
        past,
        script.config(),
        script.tenants(),
        script.kinds(),
    );
    let parts = [version, HEAD, wanted, changes];
    let wanted = parts.concat(alloc).expect(rt, "memory for a text");
    expect_text(rt, text, wanted.as_bytes());
}

// It is of the third version only where a request is withdrawn, and else of the second only where a weight or the
// number of workers changes.
#[test]
fn prints_a_journal(rt: HostRuntime) {
    let past = entries();
    let entries = "submit 7 20 0 1 1 5 18446744073709551615\ntake 7 20 2 0 990\nreport 7 20 2 0 4\n\
        done 7 20 2 0 6\nclose 7 20\n";
    expect_journal(&rt, rt.alloc(), &past[..5], "journal 1\n", entries, "");
    let changes = "weight 7 20 1 1000\n";
    expect_journal(&rt, rt.alloc(), &past[..6], "journal 2\n", entries, changes);
    let changes = "weight 7 20 1 1000\nworkers 7 20 1\n";
    expect_journal(&rt, rt.alloc(), &past[..7], "journal 2\n", entries, changes);
    let changes = "weight 7 20 1 1000\nworkers 7 20 1\nwithdraw 7 20 3\n";
    expect_journal(&rt, rt.alloc(), &past, "journal 3\n", entries, changes);
    let alone = "withdraw 7 20 3\n";
    expect_journal(&rt, rt.alloc(), &past[7..], "journal 3\n", "", alone);
}

// The line of an entry alone.
fn expect_line<R: Abort>(rt: &R, alloc: Global, entry: Entry, wanted: &[u8]) {
    let mut line = Vec::new(alloc);
    entry_line(entry, &mut line).expect(rt, "memory for a line");
    expect_same(rt, line.as_slice(), wanted);
}

#[test]
fn prints_an_entry(rt: HostRuntime) {
    expect_line(&rt, rt.alloc(), entry(Act::Close), b"close 7 20\n");
}
