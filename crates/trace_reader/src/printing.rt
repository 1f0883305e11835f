//! The printer of traces.
ghost use Rattle.std.specs.Prelude.{◌≡◌, ◌<◌, ◌++◌, length, codes, string_bytes, IfOk, OnOk};
ghost use Rattle.std.specs.Fmt.{decimal};
ghost use Rattle.program_model.specs.TraceText.{IsLawfulRow, IsLawfulTrace, tenant_record, tenant_records, request_record, request_records, trace_text};
ghost use Rattle.tenant_table.specs.Names.{names_of, weights_of};

use crate::trace::Trace;
use program_model::trace::TraceRow;
use std::alloc::{AllocError, Global};
use tenant_table::tenants::Tenants;

/// A trace as a text: a line for each tenant, by number, and then a line for each request, in order.
#[tactic(auto, unfolding(program_model::specs::TraceText::trace_text))]
pub fn print(alloc: Global, trace: &Trace) -> Result<Vec<u8>, AllocError>
    requires { IsLawfulTrace trace.now }
    ensures { IfOk result (λ text. text.items ≡ trace_text trace.now) }
{
    let mut text = tenants_text(alloc, trace.tenants())?;
    add_requests(alloc, trace, &mut text)?;
    Ok(text)
}

// The lines of tenants.
fn tenants_text(alloc: Global, tenants: &Tenants) -> Result<Vec<u8>, AllocError>
    ensures { IfOk result (λ text. text.items ≡ tenant_records (names_of tenants.now) (weights_of tenants.now)) }
{
    let mut text = Vec::new(alloc);
    for t in 0..tenants.len() {
        let line = tenant_line(alloc, tenants.name(t), tenants.weight(t))?;
        text.extend_from_slice(line.as_bytes())?;
    }
    Ok(text)
}

fn tenant_line(alloc: Global, name: &str, weight: u32) -> Result<String, AllocError>
    ensures { IfOk result (λ line. string_bytes line ≡ tenant_record name.now weight) }
{
    let line = format!(in alloc; "tenant,{name},{weight}\n")?;
    Ok(line)
}

// Appends the lines of requests.
fn add_requests(alloc: Global, trace: &Trace, text: &mut Vec<u8>) -> Result<(), AllocError>
    requires { IsLawfulTrace trace.now }
    ensures { OnOk result (text.new.items
        ≡ text.old.items ++ request_records trace.now.tenants trace.now.kinds trace.now.rows) }
{
    for row in trace.rows() {
        let line = request_line(alloc, trace, row)?;
        text.extend_from_slice(line.as_bytes())?;
    }
    Ok(())
}

fn request_line(alloc: Global, trace: &Trace, row: &TraceRow) -> Result<String, AllocError>
    requires { IsLawfulRow (length trace.now.tenants) (length trace.now.kinds) row.now }
    ensures { IfOk result (λ line. string_bytes line
        ≡ request_record trace.now.tenants trace.now.kinds row.now) }
{
    let tenant = trace.tenants().name(row.tenant);
    let kind = trace.kinds().name(row.kind);
    named_line(alloc, tenant, kind, row)
}

fn named_line(alloc: Global, tenant: &str, kind: &str, row: &TraceRow) -> Result<String, AllocError>
    ensures { IfOk result (λ line. string_bytes line ≡ codes "request,"
        ++ decimal row.now.moment ++ codes "," ++ decimal row.now.submitter ++ codes ","
        ++ tenant.now ++ codes "," ++ kind.now ++ codes ","
        ++ decimal row.now.declared ++ codes "," ++ decimal row.now.cost ++ codes "\n") }
{
    let TraceRow {
        moment,
        submitter,
        declared,
        cost,
        ..
    } = *row;
    let line = format!(in alloc;
        "request,{moment},{submitter},{tenant},{kind},{declared},{cost}\n"
    )?;
    Ok(line)
}
