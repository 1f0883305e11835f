//! The report of a history.
ghost use Rattle.std.specs.Prelude.{◌≡◌, ◌≤◌, length, IfOk, IfErr, None};
ghost use Rattle.fq_model.specs.History.{history_of};
ghost use Rattle.fq_model.specs.Limits.{HasTextLimits};
ghost use Rattle.fq_model.specs.Rules.{IsLegal};
ghost use Rattle.fq_model.specs.Fluid.{changes_of};
ghost use Rattle.fq_model.specs.Time.{last_moment};
ghost use Rattle.fq_model.specs.Report.{lag_report};
ghost use Rattle.lag_report.specs.Courses.{courses_of, rows_of};
ghost use Rattle.lag_report.specs.Reports.{report_refusal, IsReason};

use crate::automatic::last_moment;
use crate::fault::ReportFault;
use crate::lines::lines;
use crate::reading::{Contents, read, unfinished};
use crate::report::Report;
use fluid_reference::owned::by_tenant;
use fluid_reference::slots::last_slots;
use fq_model::config::Checked;
use fq_model::event::Entry;
use fq_model::limits::GREATEST_SLOT;
use std::alloc::Global;
use std::mem;

/// The lag report of a history, in slots of this length in microseconds from moment 0 on. The last slot holds the last
/// entry's moment.
pub fn report(
    alloc: Global,
    past: &[Entry],
    config: &Checked,
    slot: u64,
) -> Result<Report, ReportFault>
    requires legal { IsLegal config.now (history_of past.now) }
    requires text { HasTextLimits config.now }
    requires positive { 1 ≤ slot }
    requires short { slot ≤ GREATEST_SLOT }
    ensures report { IfOk result (λ r. r ≡ lag_report config.now (history_of past.now) slot) }
    ensures sound { IfOk result (λ _. report_refusal config.now (history_of past.now) slot ≡ None) }
    ensures reason { IfErr result (λ fault. IsReason fault (report_refusal config.now (history_of past.now) slot)) }
{
    let mut contents = read(alloc, past)?;
    let (end, entries) = (last_moment(past), past.len() as u64);
    let report = report_of(alloc, &mut contents, end, entries, config, slot);
    drop(contents);
    report
}

/// The lag report of entries that nobody needs afterwards. They are given up once they are read, before the report's
/// tables by slot are made.
pub fn last_report(
    alloc: Global,
    past: Vec<Entry>,
    config: &Checked,
    slot: u64,
) -> Result<Report, ReportFault>
    requires legal { IsLegal config.now (history_of past.items) }
    requires text { HasTextLimits config.now }
    requires positive { 1 ≤ slot }
    requires short { slot ≤ GREATEST_SLOT }
    ensures report { IfOk result (λ r. r ≡ lag_report config.now (history_of past.items) slot) }
    ensures sound { IfOk result (λ _. report_refusal config.now (history_of past.items) slot ≡ None) }
    ensures reason { IfErr result (λ fault. IsReason fault (report_refusal config.now (history_of past.items) slot)) }
{
    let mut contents = read(alloc, past.as_slice())?;
    let (end, entries) = (last_moment(past.as_slice()), past.len() as u64);
    drop(past);
    let report = report_of(alloc, &mut contents, end, entries, config, slot);
    drop(contents);
    report
}

// The lag report of a history with these contents, this last moment and this number of entries. Takes the courses and
// the completed requests.
fn report_of(
    alloc: Global,
    contents: &mut Contents,
    end: u64,
    entries: u64,
    config: &Checked,
    slot: u64,
) -> Result<Report, ReportFault>
    requires legal { IsLegal config.now (history_of contents.old.past.items) }
    requires text { HasTextLimits config.now }
    requires positive { 1 ≤ slot }
    requires short { slot ≤ GREATEST_SLOT }
    requires courses { contents.old.courses.items ≡ courses_of (history_of contents.old.past.items) }
    requires rows { contents.old.rows.items ≡ rows_of (history_of contents.old.past.items) }
    requires changes { contents.old.changes.items ≡ changes_of (history_of contents.old.past.items) }
    requires end { end ≡ last_moment (history_of contents.old.past.items) }
    requires entries { entries ≡ length contents.old.past.items }
    ensures report { IfOk result (λ r. r ≡ lag_report config.now (history_of contents.old.past.items) slot) }
    ensures sound { IfOk result (λ _. report_refusal config.now (history_of contents.old.past.items) slot ≡ None) }
    ensures reason { IfErr result (λ fault. IsReason fault
        (report_refusal config.now (history_of contents.old.past.items) slot)) }
{
    let weights = config.weights();
    if let Some(request) = unfinished(contents.courses.as_slice()) {
        return Err(ReportFault::Unfinished(request as u32));
    }
    let taken = mem::replace(&mut contents.courses, Vec::new(alloc));
    let courses = by_tenant(alloc, taken)?;
    let count = end / slot + 1;
    let rows = mem::replace(&mut contents.rows, Vec::new(alloc));
    let fluid = last_slots(
        alloc,
        rows,
        contents.changes.as_slice(),
        config,
        slot,
        count,
    )?;
    let rows = lines(alloc, courses.as_slice(), &fluid, weights, slot)?;
    Ok(Report::new(slot, count, rows, end, entries))
}
