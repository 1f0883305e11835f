//! Reports and summaries as texts.
ghost use Rattle.std.specs.Prelude.{◌≡◌, ◌≤◌, ◌++◌, length, IfOk, OnOk};
ghost use Rattle.std.specs.Fmt.{decimal, signed_decimal};
ghost use Rattle.tenant_table.specs.Names.{names_of};
ghost use Rattle.program_model.specs.ReportText.{lag_numbers, tenant_lag_line, tenant_lag_lines, slot_line, end_line, lag_report_text, lag_summary_text};
ghost use Rattle.lag_report.specs.Reports.{requests_of};
ghost use Rattle.lag_report.specs.Texts.{with_counts, with_range, with_totals};

use crate::extremes::{greatest_lag, least_lag};
use crate::report::Report;
use fq_model::lag::TenantLag;
use fq_model::limits::TEXT_TENANTS;
use itoa::Buffer;
use std::alloc::{AllocError, Global};
use tenant_table::tenants::Tenants;

/// A report as a text, with a line for each tenant.
pub fn print(alloc: Global, report: &Report, tenants: &Tenants) -> Result<Vec<u8>, AllocError>
    requires { length tenants.now ≡ length report.now.rows }
    ensures { IfOk result (λ text. text.items ≡ lag_report_text (names_of tenants.now) report.now) }
{
    let mut text = Vec::from_slice(alloc, b"report 1\n")?;
    add_slots(report, &mut text)?;
    add_tenants(report.rows(), tenants, &mut text)?;
    add_end(report, &mut text)?;
    Ok(text)
}

/// The summary of a report as a text: the number of requests and of entries, the moment of the last entry, and the
/// least and the greatest lag.
pub fn summary(alloc: Global, report: &Report) -> Result<Vec<u8>, AllocError>
    ensures { IfOk result (λ text. text.items ≡ lag_summary_text (requests_of report.now.rows) report.now) }
{
    let mut text = Vec::from_slice(alloc, b"summary 1\n")?;
    add_totals(report, &mut text)?;
    add_range(report.rows(), &mut text)?;
    Ok(text)
}

// Appends how many requests and entries there were, and when the last entry came.
fn add_totals(report: &Report, text: &mut Vec<u8>) -> Result<(), AllocError>
    ensures { OnOk result (text.new.items ≡ with_totals text.old.items report.now) }
{
    add_count(b"requests ", requests(report.rows()), text)?;
    add_count(b"\nentries ", report.entries(), text)?;
    add_count(b"\nend ", report.end(), text)?;
    Ok(())
}

// Appends the least and the greatest lag.
fn add_range(rows: &[TenantLag], text: &mut Vec<u8>) -> Result<(), AllocError>
    ensures { OnOk result (text.new.items ≡ with_range text.old.items rows.now) }
{
    add_lag(b"\nlag ", least_lag(rows), text)?;
    add_lag(b" ", greatest_lag(rows), text)?;
    text.push(b'\n')?;
    Ok(())
}

// How many requests all tenants submitted.
fn requests(rows: &[TenantLag]) -> u64
    requires { length rows.now ≤ TEXT_TENANTS }
    ensures { result ≡ requests_of rows.now }
{
    let mut requests = 0;
    for row in rows {
        requests += row.requests as u64;
    }
    requests
}

// Appends the line of the slots.
fn add_slots(report: &Report, text: &mut Vec<u8>) -> Result<(), AllocError>
    ensures { OnOk result (text.new.items ≡ text.old.items ++ slot_line report.now) }
{
    add_count(b"slot ", report.slot(), text)?;
    add_count(b" slots ", report.slots(), text)?;
    text.push(b'\n')?;
    Ok(())
}

// Appends the last line.
fn add_end(report: &Report, text: &mut Vec<u8>) -> Result<(), AllocError>
    ensures { OnOk result (text.new.items ≡ text.old.items ++ end_line report.now) }
{
    add_count(b"end ", report.end(), text)?;
    add_count(b" entries ", report.entries(), text)?;
    text.push(b'\n')?;
    Ok(())
}

// Appends a line for each tenant.
fn add_tenants(rows: &[TenantLag], tenants: &Tenants, text: &mut Vec<u8>) -> Result<(), AllocError>
    requires { length tenants.now ≡ length rows.now }
    ensures { OnOk result (text.new.items ≡ text.old.items ++ tenant_lag_lines (names_of tenants.now) rows.now) }
{
    for t in 0..tenants.len() {
        add_tenant(tenants.name(t), rows[t as usize], text)?;
    }
    Ok(())
}

// Appends a tenant's line.
fn add_tenant(name: &str, row: TenantLag, text: &mut Vec<u8>) -> Result<(), AllocError>
    ensures { OnOk result (text.new.items ≡ text.old.items ++ tenant_lag_line name.now row) }
{
    text.extend_from_slice(b"tenant ")?;
    text.extend_from_slice(name.as_bytes())?;
    add_counts(row, text)?;
    text.extend_from_slice(b" lag ")?;
    add_lags(row, text)?;
    text.push(b'\n')?;
    Ok(())
}

// Appends a tenant's weight, the number of its requests, its net charge and its fluid service.
fn add_counts(row: TenantLag, text: &mut Vec<u8>) -> Result<(), AllocError>
    ensures { OnOk result (text.new.items ≡ with_counts text.old.items row) }
{
    add_count(b" weight ", row.weight as u64, text)?;
    add_count(b" requests ", row.requests as u64, text)?;
    add_count(b" charged ", row.charged, text)?;
    add_count(b" fluid ", row.fluid, text)?;
    Ok(())
}

// Appends the five numbers of a tenant's lags.
fn add_lags(row: TenantLag, text: &mut Vec<u8>) -> Result<(), AllocError>
    ensures { OnOk result (text.new.items ≡ text.old.items ++ lag_numbers row) }
{
    add_lag(b"", row.least, text)?;
    add_lag(b" ", row.p50, text)?;
    add_lag(b" ", row.p90, text)?;
    add_lag(b" ", row.p99, text)?;
    add_lag(b" ", row.greatest, text)?;
    Ok(())
}

// Appends a word and a number.
fn add_count(word: &[u8], count: u64, text: &mut Vec<u8>) -> Result<(), AllocError>
    ensures { OnOk result (text.new.items ≡ text.old.items ++ word.now ++ decimal count) }
{
    let mut buffer = Buffer::new();
    text.extend_from_slice(word)?;
    text.extend_from_slice(buffer.format(count).as_bytes())?;
    Ok(())
}

// Appends a word and a lag, which may be below 0.
fn add_lag(word: &[u8], lag: i64, text: &mut Vec<u8>) -> Result<(), AllocError>
    ensures { OnOk result (text.new.items ≡ text.old.items ++ word.now ++ signed_decimal lag) }
{
    let mut buffer = Buffer::new();
    text.extend_from_slice(word)?;
    text.extend_from_slice(buffer.format(lag).as_bytes())?;
    Ok(())
}
