//! Messages in place of a text.
ghost use Rattle.std.specs.Prelude.{◌≡◌, string_bytes, IfOk, IsOkAnd};
ghost use Rattle.program_model.specs.Answer.{Message, message_line};
ghost use Rattle.command_texts.specs.Making.{IsStop, TellsDocumentFault};

use journal_text::fault::ScriptFault;
use journal_text::messages::placed_fault;
use program_model::ending::Stop;
use std::alloc::{AllocError, Global};

/// A stop with this text as a line, at this status; or that memory ran out.
pub fn told(alloc: Global, status: u8, text: Result<String, AllocError>) -> Stop
    ensures { IsStop (λ answer. IsOkAnd text (λ t. answer ≡ Message status (message_line (string_bytes t)))) result }
{
    match line(alloc, text) {
        Ok(message) => Stop::Message { status, message },
        Err(AllocError) => Stop::NoMemory,
    }
}

// A text as a line, after the program's name.
fn line(alloc: Global, text: Result<String, AllocError>) -> Result<String, AllocError>
    ensures { IfOk result (λ line. IsOkAnd text (λ t. string_bytes line ≡ message_line (string_bytes t))) }
{
    let text = text?;
    let line = format!(in alloc; "twodfq: {text}\n")?;
    Ok(line)
}

/// Where an input is no script or no journal, which is its title, a message that names its first fault.
pub fn document_stop(alloc: Global, title: &str, fault: ScriptFault) -> Stop
    ensures { IsStop (TellsDocumentFault title.now fault) result }
{
    match fault {
        ScriptFault::At { line, kind } => told(alloc, 3, placed_fault(alloc, title, line, kind)),
        ScriptFault::NoMemory => Stop::NoMemory,
    }
}
