//! A trace that a pool of threads serves, at least two of them at once.
use crate::samples::{TRACE, expect_same, expect_same_at, sound_sink, sound_source, words_of};
use fq_io::Clock;
use fq_memory::MemSink;
use std::alloc::Global;
use std::process::Abort;
use std::sync::Wait;
use std::sync::atomic::{AtomicU64, Ordering};
use std::thread::Threads;
use std::{str, thread};
use twodfq_main::program::twodfq;

// The journal's lines before its entries.
const HEAD: &str =
    "journal 1\nconfig 2 2dfq pessimistic 1000 11 3\ntenant a 1\ntenant b 1\nkind scan\nkind get\n";

// A clock that stands at 7. Its first caller is answered once another calls too, or after many yields, which leaves a
// mark; so the mark stays unset where two threads make calls at once.
#[derive(Drop)]
struct MeetingClock {
    asked: AtomicU64,
    missed: AtomicU64,
}

impl Clock for MeetingClock {
    ghost use Rattle.std.specs.Prelude.{◌≡◌};

    ghost tells = { λ _ answer. answer ≡ 7 };

    fn now(&self) -> u64 {
        if self.asked.fetch_add(1, Ordering::SeqCst) == 0 {
            for _ in 0..100000000u64 {
                if self.asked.load(Ordering::SeqCst) > 1 {
                    return 7;
                }
                thread::yield_now();
            }
            self.missed.store(1, Ordering::SeqCst);
        }
        7
    }
}

// The moment of an entry's line, and the cost where it is a Done.
fn told(line: &str) -> (Option<&str>, Option<&str>) {
    let mut fields = line.split(' ');
    let word = fields.next();
    let moment = fields.nth(1);
    let number = fields.nth(2);
    let cost = if word == Some("done") { number } else { None };
    (moment, cost)
}

// The output of a pool of two threads that serves the trace under a clock that sees whether two calls met.
fn serve<T: Abort + Wait + Threads + Sync>(rt: &T, alloc: Global) -> MemSink {
    let words = words_of(rt, alloc, "live --workers 2 --refresh 0 --print journal");
    let mut source = sound_source(rt, alloc, TRACE);
    let mut written = sound_sink(rt, alloc);
    let mut messages = sound_sink(rt, alloc);
    let clock = MeetingClock {
        asked: AtomicU64::new(0),
        missed: AtomicU64::new(0),
    };
    let status = twodfq(
        rt,
        alloc,
        words.as_slice(),
        &mut source,
        &mut written,
        &mut messages,
        &clock,
    );
    expect_same(rt, status, 0);
    expect_same(rt, clock.missed.load(Ordering::SeqCst), 0);
    written
}

// Each entry stands at 7, and the rows are done at their costs: one at 8, and two at 2.
fn expect_entries<R: Abort>(rt: &R, journal: &str) {
    let (mut of_8, mut of_2): (u32, u32) = (0, 0);
    for line in journal.lines().skip(6) {
        let (moment, cost) = told(line);
        expect_same_at(rt, line, moment, Some("7"));
        match cost {
            Some("8") => of_8 = of_8.saturating_add(1),
            Some("2") => of_2 = of_2.saturating_add(1),
            other => expect_same_at(rt, line, other, None),
        }
    }
    expect_same(rt, (of_8, of_2), (1, 2));
}

// A journal of ten entries below its head.
fn expect_journal<R: Abort>(rt: &R, written: &MemSink) {
    let journal = str::from_utf8(written.bytes()).expect(rt, "a text");
    expect_same(rt, journal.starts_with(HEAD), true);
    expect_same(rt, journal.lines().count(), 16);
    expect_entries(rt, journal);
}

#[test]
fn pool_serves_a_trace(rt: HostRuntime) {
    let written = serve(&rt, rt.alloc());
    expect_journal(&rt, &written);
}
