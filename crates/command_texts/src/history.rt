//! The answer from a history whose requests are all done: its journal, its lag report, both, or its summary.
ghost use Rattle.std.specs.Prelude.{◌≡◌, ◌≤◌, None, length, string_bytes, MatchResult, IfOk};
ghost use Rattle.fq_model.specs.declared.limits.TheConstants.{GREATEST_SLOT};
ghost use Rattle.fq_model.specs.History.{history_of};
ghost use Rattle.fq_model.specs.Limits.{HasTextLimits};
ghost use Rattle.fq_model.specs.Report.{unfinished};
ghost use Rattle.fq_model.specs.Rules.{IsLegal};
ghost use Rattle.program_model.specs.HistoryAnswer.{history_answer, cells_answer, cells_text};
ghost use Rattle.program_model.specs.JournalText.{journal_text};
ghost use Rattle.tenant_table.specs.Names.{names_of};
ghost use Rattle.command_texts.specs.Histories.{IsReportBy, IsReportText, IsManyCells};
ghost use Rattle.command_texts.specs.Making.{Makes, IsStop};

use crate::messages::told;
use journal_text::printing::print as print_journal;
use lag_report::automatic::auto_slot;
use lag_report::fault::ReportFault;
use lag_report::printing::{print as print_report, summary};
use lag_report::report::Report;
use lag_report::reporting::last_report;
use program_model::command::HistoryPrint;
use program_model::ending::{Output, Stop};
use sched_journal::History;
use std::alloc::{AllocError, Global};
use tenant_table::kinds::Kinds;
use tenant_table::tenants::Tenants;

/// The answer from a history that nobody needs afterwards: it is given up once its journal is printed, or its entries
/// are read for a report. Slot 0 asks for the automatic slot.
pub fn last_history(
    alloc: Global,
    what: HistoryPrint,
    slot: u64,
    history: History,
    tenants: &Tenants,
    kinds: &Kinds,
) -> Result<Output, Stop>
    requires slot { slot ≤ GREATEST_SLOT }
    requires text { HasTextLimits history.config }
    requires names { length tenants.now ≡ length history.config.weights }
    requires done { unfinished (history_of history.past) ≡ None }
    ensures { Makes (λ answer. answer ≡ history_answer what slot history.config
        (names_of tenants.now) kinds.now history.past) result }
{
    match what {
        HistoryPrint::Journal => {
            let text = journal(alloc, &history, tenants, kinds);
            drop(history);
            Ok(Output::success(text?))
        }
        HistoryPrint::Report => Ok(Output::success(reported(alloc, slot, history, tenants)?)),
        HistoryPrint::Both => {
            let text = journal(alloc, &history, tenants, kinds);
            let report = reported(alloc, slot, history, tenants)?;
            let mut text = text?;
            text.extend_from_slice(report.as_slice())?;
            Ok(Output::success(text))
        }
        HistoryPrint::Summary => {
            let report = made_report(alloc, slot, history)?;
            let text = summary(alloc, &report);
            drop(report);
            Ok(Output::success(text?))
        }
    }
}

fn journal(
    alloc: Global,
    history: &History,
    tenants: &Tenants,
    kinds: &Kinds,
) -> Result<Vec<u8>, AllocError>
    ensures { IfOk result (λ text. text.items
        ≡ journal_text history.now.config (names_of tenants.now) kinds.now history.now.past) }
{
    print_journal(alloc, history.past(), history.config(), tenants, kinds)
}

fn reported(alloc: Global, slot: u64, history: History, tenants: &Tenants) -> Result<Vec<u8>, Stop>
    requires slot { slot ≤ GREATEST_SLOT }
    requires text { HasTextLimits history.config }
    requires names { length tenants.now ≡ length history.config.weights }
    requires done { unfinished (history_of history.past) ≡ None }
    ensures { MatchResult result
        (λ text. IsReportText slot history.config (history_of history.past) (names_of tenants.now) text.items)
        (IsStop (IsManyCells slot history.config (history_of history.past))) }
{
    let report = made_report(alloc, slot, history)?;
    let text = print_report(alloc, &report, tenants);
    drop(report);
    Ok(text?)
}

// The report by the slot that is asked for, or by the automatic one.
fn made_report(alloc: Global, slot: u64, history: History) -> Result<Report, Stop>
    requires slot { slot ≤ GREATEST_SLOT }
    requires text { HasTextLimits history.config }
    requires done { unfinished (history_of history.past) ≡ None }
    ensures legal { IsLegal history.config (history_of history.past) }
    ensures report { MatchResult result
        (IsReportBy slot history.config (history_of history.past))
        (IsStop (IsManyCells slot history.config (history_of history.past))) }
{
    let (config, past) = history.into_parts();
    let chosen = if slot == 0 {
        auto_slot(past.as_slice(), &config)
    } else {
        slot
    };
    let report = last_report(alloc, past, &config, chosen);
    drop(config);
    match report {
        Ok(report) => Ok(report),
        Err(ReportFault::TooLong { slots, tenants }) => {
            Err(too_many_cells(alloc, slots as u128 * tenants as u128))
        }
        Err(ReportFault::Unfinished(_)) => unreachable!(),
        Err(ReportFault::NoMemory) => Err(Stop::NoMemory),
    }
}

/// Where a report would have more cells than it may, a message with the number of cells.
pub fn too_many_cells(alloc: Global, cells: u128) -> Stop
    ensures { IsStop (λ answer. answer ≡ cells_answer cells) result }
{
    told(alloc, 7, cells_text(alloc, cells))
}

fn cells_text(alloc: Global, cells: u128) -> Result<String, AllocError>
    ensures { IfOk result (λ text. string_bytes text ≡ cells_text cells) }
{
    let text = format!(in alloc; "the report would have {cells} cells, more than 4000000")?;
    Ok(text)
}
