//! Messages about the faults of scripts and journals.
ghost use Rattle.std.specs.Prelude.{◌≡◌, string_bytes, IfOk};
ghost use Rattle.program_model.specs.FaultTexts.{fault_text, placed_text};

use program_model::fault::ScriptKind;
use std::alloc::{AllocError, Global};

/// The message about a fault at a line of a text with this title, `script` or `journal`. Lines and words are counted
/// from 1.
pub fn placed_fault(
    alloc: Global,
    title: &str,
    line: u64,
    fault: ScriptKind,
) -> Result<String, AllocError>
    ensures { IfOk result (λ text. string_bytes text ≡ placed_text line (fault_text title.now fault)) }
{
    let fault = fault_text(alloc, title, fault)?;
    let text = format!(in alloc; "line {line}: {fault}")?;
    Ok(text)
}

fn fault_text(alloc: Global, title: &str, fault: ScriptKind) -> Result<String, AllocError>
    ensures { IfOk result (λ text. string_bytes text ≡ fault_text title.now fault) }
{
    match fault {
        ScriptKind::Header => format!(in alloc; "not a {title}"),
        ScriptKind::Word => String::from_str(alloc, "unknown word or name"),
        ScriptKind::Fields(fields) => format!(in alloc; "{fields} fields"),
        ScriptKind::Number(field) => format!(in alloc; "field {field} is not a number"),
        ScriptKind::Range(field) => format!(in alloc; "field {field} is out of range"),
        ScriptKind::Twice => String::from_str(alloc, "named twice"),
        ScriptKind::TooMany => String::from_str(alloc, "too many"),
        ScriptKind::Missing => format!(in alloc; "the {title} ends in its head"),
    }
}
