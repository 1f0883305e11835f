//! Scripts that were worked by hand: the reply to each call, and virtual time then.
use crate::samples::{expect_same, expect_same_at};
use eligible_index::index::IndexChooser;
use fq_model::event::{Call, Reply};
use journal_text::calls::read_script;
use journal_text::replies::reply_line;
use rival_policies::plain::PlainChooser;
use sched_state::{Scheduler, answer};
use shared_order::chooser::SharedChooser;
use std::alloc::Global;
use std::process::Abort;
use tag_rules::chooser::Chooser;

/// A line of a script, the reply to its call, and virtual time then, in units.
#[derive(Clone, Copy)]
pub struct Row<'a> {
    call: &'a str,
    reply: &'a str,
    time: i64,
}

/// A row.
pub fn told<'a>(call: &'a str, reply: &'a str, time: i64) -> Row<'a> {
    Row { call, reply, time }
}

// The script of these lines, below its head.
fn script_of<R: Abort>(rt: &R, alloc: Global, head: &str, rows: &[Row<'_>]) -> Vec<u8> {
    let mut text = Vec::new(alloc);
    text.extend_from_slice(head.as_bytes())
        .expect(rt, "memory for a head");
    for row in rows {
        text.extend_from_slice(row.call.as_bytes())
            .expect(rt, "memory for a line");
        text.push(b'\n').expect(rt, "memory for a line");
    }
    text
}

// The reply is printed so.
fn expect_reply<R: Abort>(rt: &R, alloc: Global, reply: Reply, wanted: &str) {
    let mut line = Vec::new(alloc);
    reply_line(reply, &mut line).expect(rt, "memory for a line");
    expect_same(rt, line.as_slice().trim_ascii_end(), wanted.as_bytes());
}

// The scheduler answers the calls as the rows say, and then shows their virtual time.
fn expect_rows<X: Chooser, R: Abort>(
    rt: &R,
    alloc: Global,
    scheduler: &mut Scheduler<u64, X>,
    calls: &[Call],
    rows: &[Row<'_>],
) {
    expect_same(rt, calls.len(), rows.len());
    for (call, row) in calls.iter().zip(rows) {
        let reply = answer(scheduler, *call);
        expect_reply(rt, alloc, reply, row.reply);
        let time = row.time as i128 * 1048576;
        expect_same_at(rt, row.call, scheduler.virtual_time(), time);
    }
}

// A scheduler over this chooser, opened by the head, answers the calls as the rows say.
fn expect_served<X: Chooser + Drop, R: Abort>(rt: &R, alloc: Global, head: &str, rows: &[Row<'_>]) {
    let text = script_of(rt, alloc, head, rows);
    let script = read_script(alloc, text.as_slice()).expect(rt, "a script");
    let (config, _, _, calls) = script.into_parts();
    let mut scheduler = Scheduler::<u64, X>::open(alloc, config).expect(
        rt,
        "memory for a scheduler",
    );
    expect_rows(rt, alloc, &mut scheduler, calls.as_slice(), rows);
    drop(scheduler);
}

/// A scheduler over each chooser answers the calls as the rows say.
pub fn expect_each<R: Abort>(rt: &R, alloc: Global, head: &str, rows: &[Row<'_>]) {
    expect_served::<PlainChooser, R>(rt, alloc, head, rows);
    expect_served::<IndexChooser, R>(rt, alloc, head, rows);
    expect_served::<SharedChooser, R>(rt, alloc, head, rows);
}
