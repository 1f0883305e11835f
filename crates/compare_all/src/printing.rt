//! A comparison as a text.
ghost use Rattle.std.specs.Prelude.{◌≡◌, ◌≤◌, ◌++◌, length, string_bytes, slice_get, Some, IfOk, OnOk};
ghost use Rattle.program_model.specs.Compare.{best};
ghost use Rattle.program_model.specs.ReportText.{compare_line, compare_lines, best_line, compare_text};
ghost use Rattle.compare_all.specs.Texts.{end_text, lag_text};

use crate::best::best;
use program_model::compare::CompareRow;
use std::alloc::{AllocError, Global};

/// A comparison as a text: a line for each row, in order, and the policy and the estimator of the best.
pub fn print(alloc: Global, rows: &[CompareRow]) -> Result<Vec<u8>, AllocError>
    requires { length rows.now ≤ 4294967296 }
    ensures { IfOk result (λ text. text.items ≡ compare_text rows.now) }
{
    let mut text = Vec::from_slice(alloc, b"compare 1\n")?;
    add_rows(alloc, rows, &mut text)?;
    if let Some(&row) = rows.get(best(rows) as usize) {
        let line = best_line(alloc, row)?;
        text.extend_from_slice(line.as_bytes())?;
    }
    Ok(text)
}

// Appends a line for each row.
fn add_rows(alloc: Global, rows: &[CompareRow], text: &mut Vec<u8>) -> Result<(), AllocError>
    ensures { OnOk result (text.new.items ≡ text.old.items ++ compare_lines rows.now) }
{
    for row in rows {
        add_row(alloc, *row, text)?;
    }
    Ok(())
}

// Appends the line of a row.
fn add_row(alloc: Global, row: CompareRow, text: &mut Vec<u8>) -> Result<(), AllocError>
    ensures { OnOk result (text.new.items ≡ text.old.items ++ compare_line row) }
{
    let end = end_text(alloc, row)?;
    text.extend_from_slice(end.as_bytes())?;
    let lag = lag_text(alloc, row)?;
    text.extend_from_slice(lag.as_bytes())
}

// A policy and an estimator, the moment of the last entry, and the number of entries.
fn end_text(alloc: Global, row: CompareRow) -> Result<String, AllocError>
    ensures { IfOk result (λ text. string_bytes text ≡ end_text row) }
{
    let (policy, estimate, end, entries) = (row.policy, row.estimate, row.end, row.entries);
    format!(in alloc; "policy {policy} estimate {estimate} end {end} entries {entries}")
}

// The least and the greatest lag, and the end of the line.
fn lag_text(alloc: Global, row: CompareRow) -> Result<String, AllocError>
    ensures { IfOk result (λ text. string_bytes text ≡ lag_text row) }
{
    let (least, greatest) = (row.least, row.greatest);
    format!(in alloc; " lag {least} {greatest}\n")
}

// The line that names the best.
fn best_line(alloc: Global, row: CompareRow) -> Result<String, AllocError>
    ensures { IfOk result (λ line. string_bytes line ≡ best_line (Some row)) }
{
    let (policy, estimate) = (row.policy, row.estimate);
    format!(in alloc; "best {policy} {estimate}\n")
}
