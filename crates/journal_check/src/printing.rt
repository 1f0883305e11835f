//! Verdicts and explanations as texts.
ghost use Rattle.std.specs.Prelude.{◌≡◌, ◌<◌, ◌++◌, All, IfOk, OnOk, IfSome, length, string_bytes};
ghost use Rattle.tenant_table.specs.Names.{names_of};
ghost use Rattle.program_model.specs.VerdictTexts.{given_text, wanted_text, verdict_text, eligible_word, start_text};
ghost use Rattle.program_model.specs.VerdictTexts.{finish_text, row_line, rows_text, taken_line, explanation_text};

use crate::checking::entry_at;
use fq_model::event::{Entry, Reply};
use journal_text::printing::entry_line;
use journal_text::replies::reply_line;
use program_model::explained::{ExplainRow, Explained};
use program_model::verdict::Verdict;
use std::alloc::{AllocError, Global};
use tenant_table::tenants::Tenants;

/// A verdict on these entries, as a text.
pub fn verdict_text(
    alloc: Global,
    entries: &[Entry],
    verdict: Verdict,
) -> Result<Vec<u8>, AllocError>
    ensures { IfOk result (λ text. text.items ≡ verdict_text entries.now verdict) }
{
    match verdict {
        Verdict::Legal => {
            let count = entries.len();
            let line = format!(in alloc; "legal entries {count}\n")?;
            Ok(line.into_bytes())
        }
        Verdict::Bad {
            entry,
            reply,
            wanted,
        } => {
            let line = format!(in alloc; "entry {entry} is not legal\n")?;
            let mut text = line.into_bytes();
            add_given(
                entry_at(entries, entry.saturating_sub(1) as usize),
                &mut text,
            )?;
            add_wanted(reply, wanted, &mut text)?;
            Ok(text)
        }
    }
}

// Appends the line of the entry that isn't legal.
fn add_given(given: Option<Entry>, text: &mut Vec<u8>) -> Result<(), AllocError>
    ensures { OnOk result (text.new.items ≡ text.old.items ++ given_text given) }
{
    if let Some(given) = given {
        text.extend_from_slice(b"given ")?;
        entry_line(given, text)?;
    }
    Ok(())
}

// Appends the line of the entry that is wanted in its place, or of the reply.
fn add_wanted(reply: Reply, wanted: Option<Entry>, text: &mut Vec<u8>) -> Result<(), AllocError>
    ensures { OnOk result (text.new.items ≡ text.old.items ++ wanted_text reply wanted) }
{
    match wanted {
        Some(entry) => {
            text.extend_from_slice(b"wanted ")?;
            entry_line(entry, text)
        }
        None => {
            text.extend_from_slice(b"reply ")?;
            reply_line(reply, text)
        }
    }
}

/// The explanation of a request as a text; None where the request was not taken.
pub fn explanation_text(
    alloc: Global,
    tenants: &Tenants,
    request: u32,
    explained: Option<Explained>,
) -> Result<Vec<u8>, AllocError>
    requires { IfSome explained (λ x. All (λ row. row.tenant < length tenants.now) x.rows.items) }
    ensures { IfOk result (λ text. text.items
        ≡ explanation_text (names_of tenants.now) request explained) }
{
    match explained {
        Some(explained) => taken_text(alloc, tenants, request, explained),
        None => {
            let line = format!(in alloc; "request {request} was not taken\n")?;
            Ok(line.into_bytes())
        }
    }
}

// Of a request that was taken.
fn taken_text(
    alloc: Global,
    tenants: &Tenants,
    request: u32,
    explained: Explained,
) -> Result<Vec<u8>, AllocError>
    requires { All (λ row. row.tenant < length tenants.now) explained.rows.items }
    ensures { IfOk result (λ text. text.items ≡ taken_line request explained
        ++ rows_text (names_of tenants.now) explained.rows.items) }
{
    let mut text = taken_line(alloc, request, &explained)?.into_bytes();
    add_rows(alloc, tenants, explained.rows.as_slice(), &mut text)?;
    Ok(text)
}

// Who took a request, and when.
fn taken_line(alloc: Global, request: u32, explained: &Explained) -> Result<String, AllocError>
    ensures { IfOk result (λ line. string_bytes line ≡ taken_line request explained.now) }
{
    let (worker, moment, vtime) = (explained.worker, explained.moment, explained.vtime);
    format!(in alloc; "request {request} worker {worker} moment {moment} virtual {vtime}\n")
}

// Appends a line for each head.
fn add_rows(
    alloc: Global,
    tenants: &Tenants,
    rows: &[ExplainRow],
    text: &mut Vec<u8>,
) -> Result<(), AllocError>
    requires { All (λ row. row.tenant < length tenants.now) rows.now }
    ensures { OnOk result (text.new.items ≡ text.old.items ++ rows_text (names_of tenants.now) rows.now) }
{
    for row in rows {
        add_row(alloc, tenants, *row, text)?;
    }
    Ok(())
}

// Appends the line of a tenant's head.
fn add_row(
    alloc: Global,
    tenants: &Tenants,
    row: ExplainRow,
    text: &mut Vec<u8>,
) -> Result<(), AllocError>
    requires { row.tenant < length tenants.now }
    ensures { OnOk result (text.new.items ≡ text.old.items ++ row_line (names_of tenants.now) row) }
{
    let start = start_text(alloc, tenants, row)?;
    text.extend_from_slice(start.as_bytes())?;
    let finish = finish_text(alloc, row)?;
    text.extend_from_slice(finish.as_bytes())
}

// A tenant, its head, and where the tenant starts.
fn start_text(alloc: Global, tenants: &Tenants, row: ExplainRow) -> Result<String, AllocError>
    requires { row.tenant < length tenants.now }
    ensures { IfOk result (λ text. string_bytes text ≡ start_text (names_of tenants.now) row) }
{
    let (name, head, start) = (tenants.name(row.tenant), row.head, row.start);
    format!(in alloc; "tenant {name} head {head} start {start}")
}

// Where the head finishes, from when on it is eligible, and whether it is.
fn finish_text(alloc: Global, row: ExplainRow) -> Result<String, AllocError>
    ensures { IfOk result (λ text. string_bytes text ≡ finish_text row) }
{
    let (finish, key, word) = (row.finish, row.key, eligible_word(row.eligible));
    format!(in alloc; " finish {finish} key {key} {word}\n")
}

fn eligible_word(eligible: bool) -> &'static str
    ensures { result.now ≡ eligible_word eligible }
{
    if eligible { "eligible" } else { "later" }
}
