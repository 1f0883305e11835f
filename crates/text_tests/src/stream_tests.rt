//! Journals that are written while their scheduler runs.
ghost use Rattle.std.specs.Prelude.{◌<◌};

use crate::samples::expect_same;
use eligible_index::index::IndexChooser;
use fq_model::event::Call;
use journal_check::checking::check;
use journal_check::read_journal;
use journal_text::calls::{Script, read_script};
use journal_text::printing::{begin_journal, entry_line};
use program_model::verdict::Verdict;
use sched_state::{Recent, answer};
use std::alloc::{AllocError, Global};
use std::process::Abort;

// Three requests, of which two are taken in their turn, and one is withdrawn; a weight changes in between.
const SCRIPT: &str =
    "script 3\nconfig 1 2dfq declared 1000 100 10\ntenant a 1\ntenant b 1\nkind get\n\
    submit 0 0 0 0 5 7\nsubmit 0 1 1 0 30 8\nsubmit 0 1 0 0 9 9\ntake 9 1 0\nwithdraw 0 2 2\n\
    done 9 6 0 5\nweight 0 6 1 4\ntake 9 6 0\ndone 9 9 0 3\nclose 0 9\n";

const JOURNAL: &str =
    "journal 3\nconfig 1 2dfq declared 1000 100 10\ntenant a 1\ntenant b 1\nkind get\n\
    submit 0 0 0 0 0 5 7\nsubmit 0 1 1 1 0 30 8\nsubmit 0 1 2 0 0 9 9\ntake 9 1 0 0 5\nwithdraw 0 2 2\n\
    done 9 6 0 0 5\nweight 0 6 1 4\ntake 9 6 0 1 30\ndone 9 9 0 1 3\nclose 0 9\n";

// How many of the last entries are kept.
const KEPT: u32 = 3;

type Kept = Recent<u64, IndexChooser>;

// The log comes by: it writes the entries from this one on, and gives the number of all.
fn read_on<R: Abort>(rt: &R, recent: &Kept, next: u64, text: &mut Vec<u8>) -> u64 {
    let count = recent.len() as u64;
    for index in next..count {
        let entry = recent.entry(index).expect(rt, "an entry that is kept");
        expect_added(rt, entry_line(entry, text));
    }
    count
}

fn expect_added<R: Abort>(rt: &R, added: Result<(), AllocError>) {
    assert!(rt; added.is_ok());
}

// The calls are made, and a log comes by after each `every` of them.
fn streamed<R: Abort>(rt: &R, recent: &mut Kept, calls: &[Call], every: usize, text: &mut Vec<u8>)
    requires { 0 < every }
{
    let mut next = 0;
    for some in calls.chunks(every) {
        for call in some {
            answer(recent, *call);
        }
        next = read_on(rt, recent, next, text);
    }
}

// The calls are made, below a head, and a log comes by after each `every` of them.
fn logged<R: Abort>(rt: &R, alloc: Global, script: Script, every: usize) -> Vec<u8>
    requires { 0 < every }
{
    let (config, tenants, kinds, calls) = script.into_parts();
    let mut recent = Kept::open_keeping(alloc, config, KEPT).expect(rt, "memory for a scheduler");
    let mut text = Vec::new(alloc);
    let begun = begin_journal(alloc, recent.config(), &tenants, &kinds, &mut text);
    begun.expect(rt, "memory for a head");
    streamed(rt, &mut recent, calls.as_slice(), every, &mut text);
    drop(recent);
    text
}

// A log that comes by after each `every` calls writes this journal, which is legal.
fn expect_streamed<R: Abort>(rt: &R, alloc: Global, every: usize)
    requires { 0 < every }
{
    let script = read_script(alloc, SCRIPT.as_bytes()).expect(rt, "a script");
    let text = logged(rt, alloc, script, every);
    expect_legal(rt, alloc, text.as_slice());
    expect_same(rt, text.as_slice(), JOURNAL.as_bytes());
}

fn expect_legal<R: Abort>(rt: &R, alloc: Global, text: &[u8]) {
    let journal = read_journal(alloc, text).expect(rt, "a journal");
    let Ok(Verdict::Legal) = check::<IndexChooser>(alloc, &journal) else {
        panic!(rt; "a legal journal")
    };
}

#[test]
fn a_log_that_comes_by_at_each_call(rt: HostRuntime) {
    expect_streamed(&rt, rt.alloc(), 1);
}

#[test]
fn a_log_that_comes_by_in_time(rt: HostRuntime) {
    expect_streamed(&rt, rt.alloc(), 3);
}

// The scheduler after all calls.
fn after_all<R: Abort>(rt: &R, alloc: Global) -> Kept {
    let script = read_script(alloc, SCRIPT.as_bytes()).expect(rt, "a script");
    let (config, _, _, calls) = script.into_parts();
    let mut recent = Kept::open_keeping(alloc, config, KEPT).expect(rt, "memory for a scheduler");
    for call in calls.as_slice() {
        answer(&mut recent, *call);
    }
    recent
}

// The log asks for the first entry that it can still read, and reads from there on.
fn expect_late<R: Abort>(rt: &R, alloc: Global, wanted: &str) {
    let recent = after_all(rt, alloc);
    expect_same(rt, recent.entry(0), None);
    expect_same(rt, recent.first_kept(), 7);
    let mut text = Vec::new(alloc);
    read_on(rt, &recent, 7, &mut text);
    expect_same(rt, text.as_slice(), wanted.as_bytes());
}

#[test]
fn a_log_that_comes_too_late(rt: HostRuntime) {
    let wanted = "take 9 6 0 1 30\ndone 9 9 0 1 3\nclose 0 9\n";
    expect_late(&rt, rt.alloc(), wanted);
}
