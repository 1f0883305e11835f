//! Command lines, and their commands.
use crate::samples::expect_same_at;
use command_line::command::command;
use command_line::options::{Absent, OptionRow, Value, Values, values_in};
use fq_model::config::{Estimator, Policy};
use program_model::argument::Argument;
use program_model::command::{
    Command, GenPrint, HistoryPrint, LiveOptions, PlainCommand, ScriptPrint,
};
use program_model::name::Name;
use program_model::trace::RunOptions;
use std::alloc::Global;
use std::process::Abort;

// An option of each kind.
const ROWS: [OptionRow; 3] = [
    OptionRow {
        name: "--seed",
        values: Values::Within {
            low: 0,
            high: u64::MAX,
        },
        absent: Absent::Required,
    },
    OptionRow {
        name: "--workers",
        values: Values::Within { low: 1, high: 64 },
        absent: Absent::Default("4"),
    },
    OptionRow {
        name: "--explain",
        values: Values::Within { low: 0, high: 9 },
        absent: Absent::Nothing,
    },
];

// The words of a line, one space between each two.
fn words_of<R: Abort>(rt: &R, alloc: Global, line: &str) -> Vec<String> {
    let mut words = Vec::new(alloc);
    for word in line.split(' ') {
        let word = word.to_string(alloc).expect(rt, "memory for a word");
        words.push(word).expect(rt, "memory for words");
    }
    words
}

// Each of these lines is this command, or none.
fn expect_commands<R: Abort>(rt: &R, alloc: Global, rows: &[(&str, Option<Command>)]) {
    for (line, wanted) in rows {
        let words = words_of(rt, alloc, line);
        expect_same_at(rt, line, command(&words) == *wanted, true);
    }
}

// No words are no command.
fn expect_no_command<R: Abort>(rt: &R) {
    assert!(rt; command(&[]) == None);
}

#[test]
fn script_is_read(rt: HostRuntime) {
    let replies = ScriptPrint::Replies;
    let journal = ScriptPrint::Journal;
    let both = ScriptPrint::Both;
    let rows = [
        ("script", written(replies)),
        ("script --print replies", written(replies)),
        ("script --print journal", written(journal)),
        ("script --print both", written(both)),
        ("script --print=both --", written(both)),
        ("script --print journal --", written(journal)),
        ("script --", written(replies)),
        ("", None),
        ("--", None),
        ("help", None),
        ("-h", None),
        ("scripts", None),
        ("Script", None),
        ("script --help", None),
        ("script extra", None),
        ("script -- --", None),
        ("script -- --print both", None),
        ("script --print", None),
        ("script --print=", None),
        ("script --print -x", None),
        ("script --print --", None),
        ("script --print Journal", None),
        ("script --print=journal=x", None),
        ("script --print journal --print journal", None),
    ];
    expect_commands(&rt, rt.alloc(), &rows);
    expect_no_command(&rt);
}

fn written(print: ScriptPrint) -> Option<Command> {
    Some(Command::Plain(PlainCommand::Script { print }))
}

fn run(options: RunOptions, slot: u64, print: HistoryPrint) -> Command {
    Command::Plain(PlainCommand::Run {
        options,
        slot,
        print,
    })
}

fn live(run: RunOptions, slot: u64, print: HistoryPrint, watch: u32) -> Command {
    let options = LiveOptions {
        run,
        slot,
        print,
        watch,
    };
    Command::Live { options }
}

fn generate(seed: u64, tenants: u32, requests: u32, print: GenPrint) -> Command {
    Command::Plain(PlainCommand::Gen {
        seed,
        tenants,
        requests,
        print,
    })
}

fn checked(explain: Option<u32>) -> Command {
    Command::Plain(PlainCommand::Check { explain })
}

fn shaped(rate: u64, burst: u64) -> Command {
    Command::Plain(PlainCommand::Shape { rate, burst })
}

fn lead<R: Abort>(rt: &R, of: &str, over: &str) -> Command {
    Command::Plain(PlainCommand::Lead {
        of: name(rt, of),
        over: name(rt, over),
    })
}

fn name<R: Abort>(rt: &R, text: &str) -> Name {
    match Name::new(text) {
        Some(name) => name,
        None => panic!(rt; "{text} is no name"),
    }
}

// A name of 64 bytes.
const LONG: &str = "0123456789abcdefghijklmnopqrstuvwxyzABCDEFGHIJKLMNOPQRSTUVWXYZ_.";

#[test]
fn lead_is_read(rt: HostRuntime) {
    let rows = [
        ("lead --of a --over b", Some(lead(&rt, "a", "b"))),
        ("lead --over=b --of=a --", Some(lead(&rt, "a", "b"))),
        ("lead --over a --of b", Some(lead(&rt, "b", "a"))),
        ("lead --of a --over a", Some(lead(&rt, "a", "a"))),
        (
            "lead --of 0 --over web-1.b_c",
            Some(lead(&rt, "0", "web-1.b_c")),
        ),
        (
            "lead --of=0123456789abcdefghijklmnopqrstuvwxyzABCDEFGHIJKLMNOPQRSTUVWXYZ_. --over b",
            Some(lead(&rt, LONG, "b")),
        ),
        (
            "lead --of=0123456789abcdefghijklmnopqrstuvwxyzABCDEFGHIJKLMNOPQRSTUVWXYZ_.0 --over b",
            None,
        ),
        ("lead", None),
        ("lead a b", None),
        ("lead --of a", None),
        ("lead --over b", None),
        ("lead --of a --over", None),
        ("lead --of= --over b", None),
        ("lead --of -a --over b", None),
        ("lead --of a --over b/c", None),
        ("lead --of a --over b,c", None),
        ("lead --of a --of a --over b", None),
        ("lead --of a --over b --print both", None),
    ];
    expect_commands(&rt, rt.alloc(), &rows);
}

#[test]
fn check_and_shape_are_read(rt: HostRuntime) {
    let rows = [
        ("check", Some(checked(None))),
        ("check --", Some(checked(None))),
        ("check --explain 0", Some(checked(Some(0)))),
        (
            "check --explain=4294967295 --",
            Some(checked(Some(u32::MAX))),
        ),
        ("check --explain 4294967296", None),
        ("check --explain", None),
        ("check --explain -1", None),
        ("check --explain 01", None),
        ("check --explain 1 --explain 1", None),
        ("check --print both", None),
        ("shape --rate 1 --burst 1", Some(shaped(1, 1))),
        (
            "shape --burst=1000000000 --rate 1000000 --",
            Some(shaped(1000000, 1000000000)),
        ),
        ("shape", None),
        ("shape --rate 1", None),
        ("shape --burst 1", None),
        ("shape --rate 0 --burst 1", None),
        ("shape --rate 1 --burst 0", None),
        ("shape --rate 1000001 --burst 1", None),
        ("shape --rate 1 --burst 1000000001", None),
        ("shape --rate 1 --rate 1 --burst 1", None),
    ];
    expect_commands(&rt, rt.alloc(), &rows);
}

#[test]
fn the_others_are_read(rt: HostRuntime) {
    let plain = RunOptions {
        workers: 4,
        policy: Policy::TwoDfq,
        estimate: Estimator::Pessimistic,
        initial: 1000,
        refresh: 10000,
    };
    let asked = RunOptions {
        workers: 64,
        policy: Policy::Wf2q,
        estimate: Estimator::Declared,
        initial: 1,
        refresh: 0,
    };
    let rows = [
        ("run", Some(run(plain, 0, HistoryPrint::Both))),
        (
            "run --workers=64 --",
            Some(run(
                RunOptions {
                    workers: 64,
                    ..plain
                },
                0,
                HistoryPrint::Both,
            )),
        ),
        (
            "run --print=journal --refresh 0 --initial=1 --estimate declared --policy wf2q --workers=64 --slot 5",
            Some(run(asked, 5, HistoryPrint::Journal)),
        ),
        (
            "run --policy=2dfq+",
            Some(run(
                RunOptions {
                    policy: Policy::TwoDfqPlus,
                    ..plain
                },
                0,
                HistoryPrint::Both,
            )),
        ),
        (
            "run --print report --slot=1000000000000000",
            Some(run(plain, 1000000000000000, HistoryPrint::Report)),
        ),
        (
            "run --slot 0 --print summary",
            Some(run(plain, 0, HistoryPrint::Summary)),
        ),
        ("run --slot 1 --slot 2", None),
        ("run --slot 1000000000000001", None),
        ("run --workers 0", None),
        ("run --workers 65", None),
        ("run --policy 2dfq++", None),
        ("live", Some(live(plain, 0, HistoryPrint::Both, 0))),
        (
            "live --print=journal --refresh 0 --initial=1 --estimate declared --policy wf2q --workers=64 --slot 5 --",
            Some(live(asked, 5, HistoryPrint::Journal, 0)),
        ),
        (
            "live --watch 1",
            Some(live(plain, 0, HistoryPrint::Both, 1)),
        ),
        (
            "live --watch=1000 --print summary",
            Some(live(plain, 0, HistoryPrint::Summary, 1000)),
        ),
        ("live --watch 1001", None),
        ("run --watch 1", None),
        ("live --workers 65", None),
        (
            "gen --requests 262144 --tenants=4096 --seed 18446744073709551615",
            Some(generate(u64::MAX, 4096, 262144, GenPrint::Trace)),
        ),
        (
            "gen --seed 7 --tenants 1 --requests 0 --print summary --",
            Some(generate(7, 1, 0, GenPrint::Summary)),
        ),
        ("gen --seed 1", None),
        ("gen --seed 7 --seed 7 --tenants 1 --requests 0", None),
        ("gen --seed 07 --tenants 1 --requests 0", None),
        ("gen --seed 7 --tenants 0 --requests 0", None),
        ("gen --seed 7 --tenants 4097 --requests 0", None),
        ("gen --seed 7 --tenants 1 --requests 262145", None),
    ];
    expect_commands(&rt, rt.alloc(), &rows);
}

// By the rows above each of these lines has these values, or is none.
fn expect_values<R: Abort>(rt: &R, alloc: Global, rows: &[(&str, Option<[Value; 3]>)]) {
    for (line, wanted) in rows {
        let words = words_of(rt, alloc, line);
        let read: Option<[Value; 3]> = values_in(&ROWS, &words);
        expect_same_at(rt, line, read == *wanted, true);
    }
}

fn number(n: u64) -> Value {
    Some(Argument::Number(n))
}

#[test]
fn options_are_read(rt: HostRuntime) {
    let rows = [
        ("--seed 0", Some([number(0), number(4), None])),
        (
            "--seed=18446744073709551615 --",
            Some([number(u64::MAX), number(4), None]),
        ),
        (
            "--workers 64 --explain=0 --seed 7",
            Some([number(7), number(64), number(0)]),
        ),
        (
            "--workers=1 --seed=7 --explain 9",
            Some([number(7), number(1), number(9)]),
        ),
        ("--workers 4", None),
        ("--", None),
        ("--seed 18446744073709551616", None),
        ("--seed 07", None),
        ("--seed +7", None),
        ("--seed 7 --workers 0", None),
        ("--seed 7 --workers 65", None),
        ("--seed 7 --explain", None),
        ("--seed 7 --explain 10", None),
        ("--seed 7 --explain none", None),
        ("--seed 7 --explain=0 --explain=0", None),
        ("--seed 7 --Workers 4", None),
        ("--seed 7 --work 4", None),
    ];
    expect_values(&rt, rt.alloc(), &rows);
}
