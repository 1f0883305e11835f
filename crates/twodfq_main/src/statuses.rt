//! The lines of the statuses that were read of a scheduler.
ghost use Rattle.std.specs.Prelude.{◌≡◌, ◌++◌, IfOk, OnOk, string_bytes};
ghost use Rattle.program_model.specs.Readings.{status_line, status_lines};

use fq_model::parts::Status;
use program_model::ending::Output;
use std::alloc::{AllocError, Global};

/// The output, with a line for each status before its text.
pub(crate) fn after_lines(
    alloc: Global,
    statuses: Vec<Status>,
    output: Output,
) -> Result<Output, AllocError>
    ensures status { IfOk result (λ more. more.status ≡ output.status) }
    ensures text { IfOk result (λ more. more.text.items ≡ status_lines statuses.items ++ output.text.items) }
{
    if statuses.is_empty() {
        return Ok(output);
    }
    let mut text = lines(alloc, statuses.as_slice())?;
    text.extend_from_slice(output.text.as_slice())?;
    Ok(Output {
        status: output.status,
        text,
    })
}

// A line for each status.
fn lines(alloc: Global, statuses: &[Status]) -> Result<Vec<u8>, AllocError>
    ensures { IfOk result (λ text. text.items ≡ status_lines statuses.now) }
{
    let mut text = Vec::new(alloc);
    for status in statuses {
        let line = line(alloc, *status)?;
        text.extend_from_slice(line.as_bytes())?;
    }
    Ok(text)
}

// The line of a status.
fn line(alloc: Global, status: Status) -> Result<String, AllocError>
    ensures { IfOk result (λ line. string_bytes line ≡ status_line status) }
{
    let (entries, moment, vtime) = (status.entries, status.moment, status.vtime);
    let (waiting, running) = (status.waiting, status.running);
    format!(in alloc; "status {entries} {moment} {vtime} {waiting} {running}\n")
}
