//! Random histories in which requests are withdrawn, over each chooser, and the verdicts on their journals.
use crate::samples::expect_same_at;
use eligible_index::index::IndexChooser;
use fq_model::event::{Call, Reply};
use journal_check::checking::check;
use journal_check::read_journal;
use journal_text::calls::read_script;
use journal_text::printing::entry_line;
use program_model::verdict::Verdict;
use rand_core::SeedableRng;
use rand_core::utils::NextWord;
use rand_pcg::Lcg64Xsh32;
use rival_policies::plain::PlainChooser;
use sched_state::{Scheduler, answer};
use shared_order::chooser::SharedChooser;
use std::alloc::Global;
use std::process::Abort;
use tag_rules::chooser::Chooser;

// Below the policy and the estimator: two workers, and six requests that may wait.
const HEAD: &str = " 20 4000 6\ntenant a 1\ntenant b 3\ntenant c 2\nkind get\nkind scan\n";

// A call at this moment, by four random numbers. Of eight calls three submit, two take, two end a request, and one
// withdraws one of the last eight requests.
fn call_of(moment: u64, newest: u32, numbers: [u32; 4]) -> Call {
    let [kind, first, second, cost] = numbers;
    let cost = 1 + (cost % 40) as u64;
    match kind % 8 {
        0..=2 => Call::Submit {
            who: 0,
            moment,
            tenant: first % 3,
            kind: second % 2,
            declared: cost,
            label: cost,
        },
        3 | 4 => Call::Take {
            who: 1,
            moment,
            worker: first % 2,
        },
        5 | 6 => Call::Done {
            who: 1,
            moment,
            worker: first % 2,
            cost,
        },
        _ => Call::Withdraw {
            who: 0,
            moment,
            request: newest.saturating_sub(first % 8),
        },
    }
}

// Makes this many random calls.
fn call_at_random<X: Chooser>(scheduler: &mut Scheduler<u64, X>, seed: u64, calls: u32) {
    let mut numbers = Lcg64Xsh32::seed_from_u64(seed);
    let mut moment = 0_u64;
    let mut newest = 0;
    for _ in 0..calls {
        moment = moment.saturating_add((numbers.next_word() % 12) as u64);
        let drawn = [
            numbers.next_word(),
            numbers.next_word(),
            numbers.next_word(),
            numbers.next_word(),
        ];
        if let Reply::Request(request) = answer(scheduler, call_of(moment, newest, drawn)) {
            newest = request;
        }
    }
}

// Appends a line for each entry of the scheduler.
fn add_entries<X: Chooser, R: Abort>(rt: &R, scheduler: &Scheduler<u64, X>, text: &mut Vec<u8>) {
    for entry in scheduler.past() {
        entry_line(*entry, text).expect(rt, "memory for a line");
    }
}

// How many lines of the text withdraw.
fn withdrawals(text: &[u8]) -> usize {
    text.split(|byte| *byte == b'\n')
        .filter(|line| line.starts_with(b"withdraw"))
        .count()
}

// The journal of a random history over this chooser is judged legal, and withdraws some requests.
fn expect_legal<X: Chooser + Drop, R: Abort>(rt: &R, alloc: Global, settings: &str, seed: u64) {
    let script = ["script 3\nconfig 2 ", settings, HEAD]
        .concat(alloc)
        .expect(rt, "memory for a head");
    let script = read_script(alloc, script.as_bytes()).expect(rt, "a script");
    let (config, _, _, _) = script.into_parts();
    let mut scheduler = Scheduler::<u64, X>::open(alloc, config).expect(
        rt,
        "memory for a scheduler",
    );
    call_at_random(&mut scheduler, seed, 600);
    let top = ["journal 3\nconfig 2 ", settings, HEAD]
        .concat(alloc)
        .expect(rt, "memory for a head");
    let mut text = Vec::new(alloc);
    text.extend_from_slice(top.as_bytes())
        .expect(rt, "memory for a head");
    add_entries(rt, &scheduler, &mut text);
    drop(scheduler);
    expect_same_at(rt, seed, withdrawals(text.as_slice()) > 20, true);
    let journal = read_journal(alloc, text.as_slice()).expect(rt, "a journal");
    let Ok(Verdict::Legal) = check::<X>(alloc, &journal) else {
        panic!(rt; "seed {seed} of {settings} is not judged legal")
    };
}

// The journals under each policy, and with each estimator, are judged legal.
fn expect_each_legal<X: Chooser + Drop, R: Abort>(rt: &R, alloc: Global) {
    let settings = [
        "2dfq+ pessimistic",
        "2dfq recent",
        "msf2q recent",
        "wf2q declared",
        "wfq pessimistic",
    ];
    for (seed, settings) in settings.iter().enumerate() {
        expect_legal::<X, R>(rt, alloc, settings, seed as u64);
    }
}

#[test]
fn over_the_scan(rt: HostRuntime) {
    expect_each_legal::<PlainChooser, HostRuntime>(&rt, rt.alloc());
}

#[test]
fn over_the_trees(rt: HostRuntime) {
    expect_each_legal::<IndexChooser, HostRuntime>(&rt, rt.alloc());
}

#[test]
fn over_the_order(rt: HostRuntime) {
    expect_each_legal::<SharedChooser, HostRuntime>(&rt, rt.alloc());
}
