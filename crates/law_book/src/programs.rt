//! Laws of the program's answers, and of its runs over memory that never fails, whatever is asked.
ghost use Rattle.program_model.specs.Commands.{Untold};
ghost use Rattle.law_book.specs.Programs.{AreOwnRows, GenRunsByDefaults, CheckTellsLegal, OneAnswer, OneStatus, SomeAnswer, SomeStatus, NeverFailsReading, NeverFailsWriting};

use fq_io::Clock;
use trace_shape::laws::least_is_there;

/// Each row of the table of commands means commands of that row.
pub fn own_rows()
    ensures { AreOwnRows }
{}

/// `gen` runs its trace, for the summary, with the options that `run` has where none are given.
pub fn gen_runs_by_defaults()
    ensures { GenRunsByDefaults }
{}

/// The status of `check` tells whether the entries of a journal are a legal history.
pub fn check_tells_legal()
    ensures { CheckTellsLegal }
{}

/// A command that asks no clock has one answer to an input at most.
pub fn one_answer<K: Clock>(_clock: &K)
    ensures untold { OneAnswer Untold }
    ensures told { OneAnswer (K.tells _clock.now) }
{}

/// So the statuses of two answers to one input agree.
pub fn one_status<K: Clock>(_clock: &K)
    ensures untold { OneStatus Untold }
    ensures told { OneStatus (K.tells _clock.now) }
{}

/// A command that asks no clock has an answer to each input, where its numbers are in their ranges.
pub fn some_answer<K: Clock>(_clock: &K)
    ensures untold { SomeAnswer Untold }
    ensures told { SomeAnswer (K.tells _clock.now) }
{
    least_is_there(); // for `shape`
}

/// So each input has one status.
pub fn some_status<K: Clock>(clock: &K)
    ensures untold { SomeStatus Untold }
    ensures told { SomeStatus (K.tells clock.now) }
{
    some_answer(clock);
}

/// Over a `CleanSource` the program never ends with 4.
pub fn never_fails_reading<K: Clock>(_clock: &K)
    ensures plain { NeverFailsReading Untold }
    ensures live { NeverFailsReading (K.tells _clock.now) }
{}

/// Over a fresh `CleanSink` that has more room than the text has bytes it never ends with 5.
pub fn never_fails_writing<K: Clock>(_clock: &K)
    ensures plain { NeverFailsWriting Untold }
    ensures live { NeverFailsWriting (K.tells _clock.now) }
{}
