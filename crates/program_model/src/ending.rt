//! The output of a command for its input, and how the program ends.
ghost use Rattle.std.specs.Prelude.{◌≡◌};
ghost use Rattle.program_model.specs.Ending.{stop_status, stop_message, failure_status, failure_message};

use fq_io::{ReadAllFault, WriteFault};
use std::alloc::AllocError;
use std::error::Error;
use std::fmt;

/// A text that a command made of its input, and the status with which the program ends once it is written.
#[derive(Drop)]
pub struct Output {
    pub status: u8,
    pub text: Vec<u8>,
}

impl Output {
    /// A text at status 0.
    pub fn success(text: Vec<u8>) -> Output
        ensures status { result.status ≡ 0 }
        ensures text { result.text ≡ text }
    {
        Output { status: 0, text }
    }
}

/// Why a command has no text for its input.
#[derive(Debug, Drop)]
pub enum Stop {
    /// The input calls for this message, a line, and for this exit status.
    Message { status: u8, message: String },
    /// Memory ran out.
    NoMemory,
}

/// Why the program ends short of its output.
#[derive(Debug, Drop)]
pub enum Failure {
    /// The words are not a command line.
    Words,
    /// More bytes came than an input may have.
    TooLong,
    /// A read failed.
    Reading,
    /// A write failed.
    Writing,
    /// The command has no text for its input.
    Stopped(Stop),
}

impl Stop {
    /// The exit status: that of the message, or 6.
    pub fn status(&self) -> u8
        ensures { result ≡ stop_status self.now }
    {
        match self {
            Stop::Message { status, .. } => *status,
            Stop::NoMemory => 6,
        }
    }

    /// One line for the messages.
    pub fn message(&self) -> &str
        ensures { result.now ≡ stop_message self.now }
    {
        match self {
            Stop::Message { message, .. } => message.as_str(),
            Stop::NoMemory => "twodfq: out of memory\n",
        }
    }
}

impl Failure {
    /// The exit status: 2 to 6, or that of a command's message.
    pub fn status(&self) -> u8
        ensures { result ≡ failure_status self.now }
    {
        match self {
            Failure::Words => 2,
            Failure::TooLong => 3,
            Failure::Reading => 4,
            Failure::Writing => 5,
            Failure::Stopped(stop) => stop.status(),
        }
    }

    /// One line for the messages.
    pub fn message(&self) -> &str
        ensures { result.now ≡ failure_message self.now }
    {
        match self {
            Failure::Words => "twodfq: the words are not a command line\n",
            Failure::TooLong => "twodfq: input longer than 67108864 bytes\n",
            Failure::Reading => "twodfq: reading failed\n",
            Failure::Writing => "twodfq: writing failed\n",
            Failure::Stopped(stop) => stop.message(),
        }
    }
}

/// The message without its line end.
impl fmt::Display for Stop {
    fn fmt<W: fmt::Write>(&self, f: &mut fmt::Formatter<W>) -> fmt::Result {
        write!(f, "{}", self.message().trim_end())
    }
}

impl Error for Stop {}

/// The message without its line end.
impl fmt::Display for Failure {
    fn fmt<W: fmt::Write>(&self, f: &mut fmt::Formatter<W>) -> fmt::Result {
        write!(f, "{}", self.message().trim_end())
    }
}

impl Error for Failure {}

impl From<AllocError> for Stop {
    ghost use Rattle.program_model.specs.declared.ending.Stop.TheVariants as stops;

    ghost from_gives = { λ _ stop. stop ≡ stops.NoMemory };

    fn from(_fault: AllocError) -> Stop {
        Stop::NoMemory
    }
}

impl From<Stop> for Failure {
    ghost use Rattle.program_model.specs.declared.ending.Failure.TheVariants.{Stopped};

    ghost from_gives = { λ stop failure. failure ≡ Stopped stop };

    fn from(stop: Stop) -> Failure {
        Failure::Stopped(stop)
    }
}

impl From<ReadAllFault> for Failure {
    ghost use Rattle.program_model.specs.Ending.{reading_failure};

    ghost from_gives = { λ fault failure. failure ≡ reading_failure fault };

    fn from(fault: ReadAllFault) -> Failure {
        match fault {
            ReadAllFault::ReadFault => Failure::Reading,
            ReadAllFault::TooLong(_) => Failure::TooLong,
            ReadAllFault::NoMemory => Failure::Stopped(Stop::NoMemory),
        }
    }
}

impl From<WriteFault> for Failure {
    ghost use Rattle.program_model.specs.declared.ending.Failure.TheVariants.{Writing};

    ghost from_gives = { λ _ failure. failure ≡ Writing };

    fn from(_fault: WriteFault) -> Failure {
        Failure::Writing
    }
}
