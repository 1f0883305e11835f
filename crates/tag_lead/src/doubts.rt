//! The doubt about the requests that run.
ghost use Rattle.std.specs.Prelude.{◌≡◌, ◌≤◌, ◌<◌, ◌+◌, IfSome, length, slice_index};
ghost use Rattle.fq_model.specs.History.{history_of};
ghost use Rattle.fq_model.specs.Lead.{doubt};
ghost use Rattle.fq_model.specs.Limits.{InLimits};
ghost use Rattle.fq_model.specs.Rules.{IsLegal};
ghost use Rattle.charge_book.specs.Rows.{row_charge};
ghost use Rattle.tag_lead.specs.Doubts.{CanDoubt, rise_of, fall_of, part_of};

use crate::limits::{GREATEST_DOUBT, GREATEST_PART};
use crate::spans::{Spans, steps};
use charge_book::row::RunRow;
use sched_state::Scheduler;
use tag_rules::chooser::Chooser;

/// The doubt about the requests that run, in steps, in the lead of tenant f over tenant g: each request of f may come
/// to its greatest length, and each of g to its least.
pub fn doubt<X: Chooser>(scheduler: &Scheduler<u64, X>, spans: &Spans, f: u32, g: u32) -> u128
    requires limits { InLimits scheduler.now.config }
    requires legal { IsLegal scheduler.now.config (history_of scheduler.now.past) }
    requires longest { length scheduler.now.past ≤ length spans.now.longest.items }
    requires shortest { length scheduler.now.past ≤ length spans.now.shortest.items }
    ensures value { result ≡ doubt (slice_index spans.now.longest.items) (slice_index spans.now.shortest.items)
        scheduler.now.config (history_of scheduler.now.past) f g }
    ensures low { result ≤ GREATEST_DOUBT }
{
    let mut sum = 0;
    for worker in 0..scheduler.config().workers() {
        sum += part(scheduler.running(worker), spans, f, g);
    }
    sum
}

// The doubt about the request that one worker runs.
fn part(row: Option<RunRow>, spans: &Spans, f: u32, g: u32) -> u128
    requires { IfSome row (CanDoubt (length spans.now.longest.items) (length spans.now.shortest.items)) }
    ensures value { result ≡ part_of spans.now.longest.items spans.now.shortest.items f g row }
    ensures low { result ≤ GREATEST_PART }
{
    match row {
        Some(row) => {
            let len = steps(row.charge(), row.weight);
            let rise = rise(row, len, spans.longest.as_slice(), f);
            let fall = fall(row, len, spans.shortest.as_slice(), g);
            rise as u128 + fall as u128
        }
        None => 0,
    }
}

// The rise of a request of the tenant to its greatest length.
fn rise(row: RunRow, len: u64, longest: &[u64], tenant: u32) -> u64
    requires { row.request < length longest.now }
    ensures { result ≡ rise_of row len longest.now tenant }
{
    if row.tenant == tenant {
        longest[row.request as usize].saturating_sub(len)
    } else {
        0
    }
}

// The fall of a request of the tenant to its least length.
fn fall(row: RunRow, len: u64, shortest: &[u64], tenant: u32) -> u64
    requires { row.request < length shortest.now }
    ensures { result ≡ fall_of row len shortest.now tenant }
{
    if row.tenant == tenant {
        len.saturating_sub(shortest[row.request as usize])
    } else {
        0
    }
}
