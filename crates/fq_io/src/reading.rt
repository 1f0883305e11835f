//! Reading a source to its end.
ghost use Rattle.std.specs.Prelude.{◌≡◌, ◌+◌, ◌≤◌, IfOk, IfErr, length};
ghost use Rattle.fq_io.specs.declared.reading.ReadAllFault.TheVariants.{ReadFault, NoMemory};
ghost use Rattle.fq_io.specs.Sources.{GaveAll, TookAtMost, IsReadAllFault};

use crate::fault::Failed;
use crate::source::Source;
use std::alloc::{AllocError, Global};
use thiserror::Error;

/// How many bytes one call asks for at most.
const PIECE: usize = 65536;

/// Why a source was not read to its end. The bytes that were read are given up.
#[derive(Clone, Copy, Debug, PartialEq, Eq, Error)]
pub enum ReadAllFault {
    /// A read failed.
    #[error("a read failed")]
    ReadFault,
    /// More bytes came than this limit.
    #[error("more than {0} bytes")]
    TooLong(u64),
    /// Memory for the bytes was refused.
    #[error("out of memory")]
    NoMemory,
}

impl From<Failed> for ReadAllFault {
    ghost from_gives = { λ _ fault. fault ≡ ReadFault };

    fn from(_: Failed) -> ReadAllFault {
        ReadAllFault::ReadFault
    }
}

impl From<AllocError> for ReadAllFault {
    ghost from_gives = { λ _ fault. fault ≡ NoMemory };

    fn from(_: AllocError) -> ReadAllFault {
        ReadAllFault::NoMemory
    }
}

/// Reads a source to its end, if no more than `limit` bytes come. It stops after one byte more.
pub fn read_all<S: Source>(
    alloc: Global,
    source: &mut S,
    limit: u64,
) -> Result<Vec<u8>, ReadAllFault>
    ensures ok { IfOk result (λ all. GaveAll (S.left source.old) (S.left source.new) all.items) }
    ensures limit { IfOk result (λ all. length all.items ≤ limit) }
    ensures fault { IfErr result (IsReadAllFault
        (S.left source.old) (S.left source.new) (S.faults source.old) (S.faults source.new) limit) }

    // Whatever the answer.
    ensures taken { TookAtMost (S.left source.old) (S.left source.new) (limit + 1) }
    ensures later { S.faults source.old ≤ S.faults source.new }
{
    let mut all = Vec::new(alloc);
    let mut buf = [0u8; PIECE];
    'reading: while all.len() as u64 <= limit {
        // One byte above the limit may be asked for, and no more.
        let room = limit - all.len() as u64;
        let want = room.min(PIECE as u64 - 1) as usize + 1;
        let count = source.read(&mut buf[..want])?;
        if count == 0 {
            return Ok(all);
        }
        all.extend_from_slice(&buf[..count])?;
    }
    Err(ReadAllFault::TooLong(limit))
}
