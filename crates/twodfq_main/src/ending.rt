//! The end of a command: it writes the output, or the message where there is no output, and gives the status.
ghost use Rattle.std.specs.Prelude.{◌≡◌, ◌≤◌};
ghost use Rattle.program_model.specs.Ending.{status_of, failure_status, failure_message};
ghost use Rattle.program_model.specs.Program.{Says, TellsEnd, moved};
ghost use Rattle.twodfq_main.specs.Ends.{EndsWith};

use fq_io::{Sink, write_all};
use program_model::ending::{Failure, Output, Stop};

/// Writes the message of a failed end, if the end failed, and gives the status of the end.
pub fn told<E: Sink>(errs: &mut E, end: Result<u8, Failure>) -> u8
    ensures status { result ≡ status_of end }
    ensures told { TellsEnd (moved E.written E.faults errs.old errs.new) end }
    ensures later { E.faults errs.old ≤ E.faults errs.new }
{
    match end {
        Ok(status) => status,
        Err(failure) => tell(errs, failure),
    }
}

/// Writes the message of a failure, and gives its status. A fault of `errs` changes nothing else.
pub fn tell<E: Sink>(errs: &mut E, failure: Failure) -> u8
    ensures status { result ≡ failure_status failure }
    ensures told { Says (moved E.written E.faults errs.old errs.new) (failure_message failure) }
    ensures later { E.faults errs.old ≤ E.faults errs.new }
{
    let _ = write_all(errs, failure.message().as_bytes());
    failure.status()
}

/// Writes the text of an output, and gives its status; or gives the failure: no output was made, or a write failed.
pub fn written<W: Sink>(sink: &mut W, made: Result<Output, Stop>) -> Result<u8, Failure>
    ensures ends { EndsWith made (moved W.written W.faults sink.old sink.new) result }
    ensures later { W.faults sink.old ≤ W.faults sink.new }
    ensures room { W.room sink.new ≡ W.room sink.old }
{
    let Output { status, text } = made?;
    let end = write_all(sink, text.as_slice());
    drop(text);
    end?;
    Ok(status)
}
