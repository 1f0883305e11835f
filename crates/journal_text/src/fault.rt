//! Why a script or a journal was not read.
ghost use Rattle.std.specs.Prelude.{◌≡◌};
ghost use Rattle.journal_text.specs.declared.fault.LineError.TheVariants.{Fault, NoMemory};
ghost use Rattle.journal_text.specs.Reading.{fault_at};

use program_model::fault::ScriptKind;
use std::alloc::{AllocError, AllocFailed};
use thiserror::Error;

/// Why a document was not read.
#[derive(Clone, Copy, Debug, PartialEq, Eq, Error)]
pub enum ScriptFault {
    /// The first fault: its line, counted from 1, and its kind.
    #[error("line {line}: {kind}")]
    At { line: u64, kind: ScriptKind },
    /// Memory ran out.
    #[error("out of memory")]
    NoMemory,
}

/// Why a line was not read.
#[derive(Clone, Copy, Debug, Error)]
pub enum LineError {
    /// The line's first fault.
    #[error("{0}")]
    Fault(ScriptKind),
    /// Memory ran out.
    #[error("out of memory")]
    NoMemory,
}

impl LineError {
    /// This error at a line of the text, counted from 1.
    pub fn at(self, line: u64) -> ScriptFault
        ensures { result ≡ fault_at line self }
    {
        match self {
            LineError::Fault(kind) => ScriptFault::At { line, kind },
            LineError::NoMemory => ScriptFault::NoMemory,
        }
    }
}

impl From<ScriptKind> for LineError {
    ghost from_gives = { λ kind e. e ≡ Fault kind };

    fn from(kind: ScriptKind) -> LineError {
        LineError::Fault(kind)
    }
}

impl From<AllocError> for LineError {
    ghost from_gives = { λ _ e. e ≡ NoMemory };

    fn from(_e: AllocError) -> LineError {
        LineError::NoMemory
    }
}

impl From<AllocError> for ScriptFault {
    ghost use Rattle.journal_text.specs.declared.fault.ScriptFault.TheVariants.{NoMemory};

    ghost from_gives = { λ _ e. e ≡ NoMemory };

    fn from(_e: AllocError) -> ScriptFault {
        ScriptFault::NoMemory
    }
}

impl<T: Drop> From<AllocFailed<T>> for ScriptFault {
    ghost use Rattle.journal_text.specs.declared.fault.ScriptFault.TheVariants.{NoMemory};

    ghost from_gives = { λ _ e. e ≡ NoMemory };

    fn from(_e: AllocFailed<T>) -> ScriptFault {
        ScriptFault::NoMemory
    }
}
