//! Scripts written by hand, with their contents or their faults by the grammar.
use crate::samples::{expect_same, expect_same_at};
use fq_model::config::{Checked, Estimator, Policy};
use fq_model::event::Call;
use journal_text::calls::{open_script, read_script};
use std::alloc::Global;
use std::process::Abort;
use tenant_table::kinds::Kinds;
use tenant_table::tenants::Tenants;

// A script's configuration, as its text says it.
fn expect_config<R: Abort>(rt: &R, config: &Checked) {
    expect_same(rt, (config.workers(), config.initial()), (1, 1000));
    assert!(rt; config.policy() == Policy::TwoDfq);
    assert!(rt; config.estimate() == Estimator::Declared);
    expect_same(
        rt,
        (config.entries(), config.requests(), config.kinds()),
        (100, 10, 1),
    );
    expect_same(rt, config.weights(), [1, 3].as_slice());
}

// Its names.
fn expect_names<R: Abort>(rt: &R, tenants: &Tenants, kinds: &Kinds) {
    assert!(rt; tenants.len() == 2);
    expect_same(rt, tenants.name(1), "b");
    assert!(rt; kinds.len() == 1);
    expect_same(rt, kinds.name(0), "get");
}

// A text is a script of that configuration and those names, with these calls.
fn expect_script<R: Abort>(rt: &R, alloc: Global, text: &str, calls: &[Call]) {
    let script = read_script(alloc, text.as_bytes()).expect(rt, "a script");
    expect_config(rt, script.config());
    expect_names(rt, script.tenants(), script.kinds());
    expect_same_at(rt, "the calls", script.body() == calls, true);
}

#[test]
fn reads_a_script(rt: HostRuntime) {
    let text = "script 3\nconfig 1 2dfq declared 1000 100 10\ntenant a 1\ntenant b 3\nkind get\n\
        submit 0 0 0 0 5 7\ntake 9 0 0\ndone 9 5 0 5\nreport 9 5 0 3\nclose 0 5\n\
        weight 4 7 5 4294967295\nworkers 6 18446744073709551615 0\nwithdraw 3 2 4294967295\n";
    let calls = [
        Call::Submit {
            who: 0,
            moment: 0,
            tenant: 0,
            kind: 0,
            declared: 5,
            label: 7,
        },
        Call::Take {
            who: 9,
            moment: 0,
            worker: 0,
        },
        Call::Done {
            who: 9,
            moment: 5,
            worker: 0,
            cost: 5,
        },
        Call::Report {
            who: 9,
            moment: 5,
            worker: 0,
            used: 3,
        },
        Call::Close { who: 0, moment: 5 },
        Call::Weight {
            who: 4,
            moment: 7,
            tenant: 5,
            weight: 4294967295,
        },
        Call::Workers {
            who: 6,
            moment: 18446744073709551615,
            count: 0,
        },
        Call::Withdraw {
            who: 3,
            moment: 2,
            request: 4294967295,
        },
    ];
    expect_script(&rt, rt.alloc(), text, &calls);
}

// A text is a script of two kinds, and its calls are read one by one.
fn expect_call_by_call<R: Abort>(rt: &R, alloc: Global, text: &str, calls: &[Call]) {
    let mut script = open_script(alloc, text.as_bytes()).expect(rt, "a script");
    expect_same(
        rt,
        (script.head.kinds().len(), script.head.body().len()),
        (2, 0),
    );
    for (place, call) in calls.iter().enumerate() {
        expect_same_at(rt, place, script.body.read_next() == Ok(Some(*call)), true);
    }
    expect_same_at(
        rt,
        "after the calls",
        script.body.read_next() == Ok(None),
        true,
    );
}

// A worker's take at this moment.
fn take_at(moment: u64) -> Call {
    Call::Take {
        who: 9,
        moment,
        worker: 3,
    }
}

#[test]
fn reads_a_script_call_by_call(rt: HostRuntime) {
    let text = "script 1\nconfig 1 2dfq declared 1000 100 10\ntenant a 1\nkind get\nkind put\n\
        take 9 0 3\nclose 7 5";
    let calls = [take_at(0), Call::Close { who: 7, moment: 5 }];
    expect_call_by_call(&rt, rt.alloc(), text, &calls);
}

// Below a first line of version 3, calls that are read at once and one that is read by its words.
#[test]
fn reads_a_withdrawal_among_others(rt: HostRuntime) {
    let text = "script 3\nconfig 1 2dfq declared 1000 100 10\ntenant a 1\nkind get\nkind put\n\
        take 9 0 3\nwithdraw 7 5 8\ntake 9 6 3\n";
    let withdraw = Call::Withdraw {
        who: 7,
        moment: 5,
        request: 8,
    };
    expect_call_by_call(&rt, rt.alloc(), text, &[take_at(0), withdraw, take_at(6)]);
}

// Numbers of up to 18 digits are read as they are passed, longer ones by their words.
#[test]
fn reads_numbers_of_every_length(rt: HostRuntime) {
    let text = "script 1\nconfig 1 2dfq declared 1000 100 10\ntenant a 1\nkind get\nkind put\n\
        take 9 0 3\ntake 9 10 3\ntake 9 999999999999999999 3\ntake 9 1000000000000000000 3\n\
        take 9 9999999999999999999 3\ntake 9 18446744073709551615 3\n";
    let calls = [
        take_at(0),
        take_at(10),
        take_at(999999999999999999),
        take_at(1000000000000000000),
        take_at(9999999999999999999),
        take_at(18446744073709551615),
    ];
    expect_call_by_call(&rt, rt.alloc(), text, &calls);
}

// Each of these is a script.
fn expect_scripts<R: Abort>(rt: &R, alloc: Global, texts: &[&str]) {
    for text in texts {
        expect_same_at(rt, text, read_script(alloc, text.as_bytes()).err(), None);
    }
}

#[test]
fn reads_every_word(rt: HostRuntime) {
    let texts = [
        "script 1\nconfig 1 2dfq declared 1000 100 10\ntenant a 1\nkind get\n",
        "script 1\nconfig 64 wfq recent 1 4 1\ntenant a 1000\nkind get",
        "script 1\nconfig 1 wf2q pessimistic 1000000000 4194304 262144\ntenant A-z_0.9 1\nkind -\n",
        "script 1\nconfig 1 msf2q declared 1 4 1\ntenant a 1\ntenant b 1\nkind a\nkind b\nsubmit 4294967295 18446744073709551615 4294967295 4294967295 0 18446744073709551615\n",
        "script 1\nconfig 1 2dfq+ declared 1000 100 10\ntenant aaaaaaaaaaaaaaaaaaaaaaaaaaaaaaaaaaaaaaaaaaaaaaaaaaaaaaaaaaaaaaaa 1\nkind aaaaaaaaaaaaaaaaaaaaaaaaaaaaaaaaaaaaaaaaaaaaaaaaaaaaaaaaaaaaaaaa\n",
    ];
    expect_scripts(&rt, rt.alloc(), &texts);
}
