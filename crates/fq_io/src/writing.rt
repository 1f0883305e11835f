//! Writing a text to its end.
ghost use Rattle.std.specs.Prelude.{◌≡◌, ◌≤◌, OnOk, OnErr};
ghost use Rattle.std.specs.Io.KnownBytes.{Appends};
ghost use Rattle.fq_io.specs.Faults.{Rose};
ghost use Rattle.fq_io.specs.Sinks.{AppendsPart};

use crate::fault::Failed;
use crate::sink::Sink;
use thiserror::Error;

/// A write failed before all was written.
#[derive(Clone, Copy, Debug, PartialEq, Eq, Error)]
#[error("a write failed before all was written")]
pub struct WriteFault;

impl From<Failed> for WriteFault {
    fn from(_: Failed) -> WriteFault {
        WriteFault
    }
}

/// Writes all of `bytes`. It takes no memory.
pub fn write_all<S: Sink>(sink: &mut S, bytes: &[u8]) -> Result<(), WriteFault>
    ensures ok { OnOk result (Appends (S.written sink.old) (S.written sink.new) bytes.now) }
    ensures cause { OnErr result (Rose (S.faults sink.old) (S.faults sink.new)) }
    ensures part { OnErr result (AppendsPart (S.written sink.old) (S.written sink.new) bytes.now) }
    ensures later { S.faults sink.old ≤ S.faults sink.new }
    ensures fixed { S.room sink.new ≡ S.room sink.old }
{
    let mut at = 0;
    'writing: while at < bytes.len() {
        at += sink.write(&bytes[at..])?;
    }
    Ok(())
}
