//! The texts of the faults of traces.
ghost use Rattle.std.specs.Prelude.{◌≡◌, string_bytes, IfOk};
ghost use Rattle.program_model.specs.FaultTexts.{placed_text, trace_fault_text};

use program_model::fault::TraceKind;
use std::alloc::{AllocError, Global};

/// The text of a fault at a record of a trace. Records and fields are counted from 1.
pub fn placed_fault(alloc: Global, line: u64, fault: TraceKind) -> Result<String, AllocError>
    ensures { IfOk result (λ text. string_bytes text ≡ placed_text line (trace_fault_text fault)) }
{
    let fault = fault_text(alloc, fault)?;
    let text = format!(in alloc; "line {line}: {fault}")?;
    Ok(text)
}

fn fault_text(alloc: Global, fault: TraceKind) -> Result<String, AllocError>
    ensures { IfOk result (λ text. string_bytes text ≡ trace_fault_text fault) }
{
    match fault {
        TraceKind::NotUtf8 => String::from_str(alloc, "not UTF-8"),
        TraceKind::Word => String::from_str(alloc, "unknown word or name"),
        TraceKind::Fields(fields) => format!(in alloc; "{fields} fields"),
        TraceKind::Number(field) => format!(in alloc; "field {field} is not a number"),
        TraceKind::Range(field) => format!(in alloc; "field {field} is out of range"),
        TraceKind::UnknownTenant => String::from_str(alloc, "unknown tenant"),
        TraceKind::Twice => String::from_str(alloc, "named twice"),
        TraceKind::Backward => String::from_str(alloc, "moment goes back"),
        TraceKind::TooMany => String::from_str(alloc, "too many"),
        TraceKind::NoTenants => String::from_str(alloc, "no tenants"),
    }
}
