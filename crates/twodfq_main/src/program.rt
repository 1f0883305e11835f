//! The program, over any source, sinks and clock: it reads the input of a command, has it answered, and writes the
//! answer.
ghost use Rattle.std.specs.Prelude.{◌≡◌, map, is_some, IfSome};
ghost use Rattle.std.specs.String.{string_bytes};
ghost use Rattle.program_model.specs.CommandLimits.{IsInRange};
ghost use Rattle.program_model.specs.Commands.{Untold, is_plain, is_live, is_compare};
ghost use Rattle.program_model.specs.Program.{if_served, is_any, moved};
ghost use Rattle.twodfq_main.specs.Runs.{Runs, EndsAs};

use crate::ending::{told, written};
use crate::reading::{read_input, reads_input};
use crate::{compare, live, plain};
use command_line::command::command;
use fq_io::{Clock, Sink, Source};
use program_model::command::Command;
use program_model::ending::Failure;
use std::alloc::Global;
use std::sync::Wait;
use std::thread::Threads;

/// The program: runs the command of the words, which come without the program's name, as `live`, `compare` or `plain`
/// would. The answer is the exit status: 0, or 2 to 8.
pub fn twodfq<T: Wait + Threads + Sync, R: Source, W: Sink, E: Sink, K: Clock + Sync>(
    rt: &T,
    alloc: Global,
    words: &[String],
    source: &mut R,
    sink: &mut W,
    errs: &mut E,
    clock: &K,
) -> u8
    ensures { Runs is_any (K.tells clock.now) (map string_bytes words.now)
        (moved R.left R.faults source.old source.new) (moved W.written W.faults sink.old sink.new)
        (moved E.written E.faults errs.old errs.new) (W.room sink.old) (W.room sink.new) result }
{
    let ask = command(words);
    if is_to_wait(&ask) {
        let end = live_end(rt, alloc, ask, source, sink, clock);
        return told(errs, end);
    }
    if is_to_compare(&ask) {
        let end = compare_end(rt, alloc, ask, source, sink);
        return told(errs, end);
    }
    let end = plain_end(alloc, ask, source, sink);
    told(errs, end)
}

// Whether the command waits for threads.
fn is_to_wait(ask: &Option<Command>) -> bool
    ensures { result ≡ is_some (if_served is_live ask.now) }
{
    matches!(ask, Some(Command::Live { .. }))
}

// Whether the command is `compare`.
fn is_to_compare(ask: &Option<Command>) -> bool
    ensures { result ≡ is_some (if_served is_compare ask.now) }
{
    matches!(ask, Some(Command::Compare { .. }))
}

/// The command `live`, which serves a trace by a pool of threads; the words of another command are no command line
/// here. The answer is the exit status.
///
/// It prints one history that the pool's calls formed, in the forms that are asked for. The history is legal. It has
/// each submitter's rows once and in their order; each request is taken once and done at its row's cost, by a worker
/// for which it was the policy's choice. And each entry is at a moment that the clock told, or at the moment of the
/// entry before it where this is later.
pub fn live<T: Wait + Threads + Sync, R: Source, W: Sink, E: Sink, K: Clock + Sync>(
    rt: &T,
    alloc: Global,
    words: &[String],
    source: &mut R,
    sink: &mut W,
    errs: &mut E,
    clock: &K,
) -> u8
    ensures { Runs is_live (K.tells clock.now) (map string_bytes words.now)
        (moved R.left R.faults source.old source.new) (moved W.written W.faults sink.old sink.new)
        (moved E.written E.faults errs.old errs.new) (W.room sink.old) (W.room sink.new) result }
{
    let end = live_end(rt, alloc, command(words), source, sink, clock);
    told(errs, end)
}

/// The command `compare`, which simulates a trace under the published policies and all estimators; the words of another
/// command are no command line here. Threads work for it, but it does not wait: it always returns. The answer is the
/// exit status.
pub fn compare<T: Threads + Sync, R: Source, W: Sink, E: Sink>(
    rt: &T,
    alloc: Global,
    words: &[String],
    source: &mut R,
    sink: &mut W,
    errs: &mut E,
) -> u8
    ensures { Runs is_compare Untold (map string_bytes words.now)
        (moved R.left R.faults source.old source.new) (moved W.written W.faults sink.old sink.new)
        (moved E.written E.faults errs.old errs.new) (W.room sink.old) (W.room sink.new) result }
{
    let end = compare_end(rt, alloc, command(words), source, sink);
    told(errs, end)
}

/// The commands that need no threads; the words of another command are no command line here. It always returns. The
/// answer is the exit status.
pub fn plain<R: Source, W: Sink, E: Sink>(
    alloc: Global,
    words: &[String],
    source: &mut R,
    sink: &mut W,
    errs: &mut E,
) -> u8
    ensures { Runs is_plain Untold (map string_bytes words.now)
        (moved R.left R.faults source.old source.new) (moved W.written W.faults sink.old sink.new)
        (moved E.written E.faults errs.old errs.new) (W.room sink.old) (W.room sink.new) result }
{
    let end = plain_end(alloc, command(words), source, sink);
    told(errs, end)
}

// Runs the command, if it is `live`; other words are no command line.
fn live_end<T: Wait + Threads + Sync, R: Source, W: Sink, K: Clock + Sync>(
    rt: &T,
    alloc: Global,
    ask: Option<Command>,
    source: &mut R,
    sink: &mut W,
    clock: &K,
) -> Result<u8, Failure>
    requires range { IfSome ask IsInRange }
    ensures { EndsAs (K.tells clock.now) (if_served is_live ask) (moved R.left R.faults source.old source.new)
        (moved W.written W.faults sink.old sink.new) (W.room sink.old) (W.room sink.new) result }
{
    match ask {
        Some(Command::Live { options }) => {
            let input = read_input(alloc, true, source)?;
            let output = live::answer(rt, alloc, options, input, clock);
            written(sink, output)
        }
        _ => Err(Failure::Words),
    }
}

// Runs the command, if it is `compare`; other words are no command line.
fn compare_end<T: Threads + Sync, R: Source, W: Sink>(
    rt: &T,
    alloc: Global,
    ask: Option<Command>,
    source: &mut R,
    sink: &mut W,
) -> Result<u8, Failure>
    requires range { IfSome ask IsInRange }
    ensures { EndsAs Untold (if_served is_compare ask) (moved R.left R.faults source.old source.new)
        (moved W.written W.faults sink.old sink.new) (W.room sink.old) (W.room sink.new) result }
{
    match ask {
        Some(Command::Compare { options }) => {
            let input = read_input(alloc, true, source)?;
            let output = compare::answer(rt, alloc, options, input);
            written(sink, output)
        }
        Some(Command::Plain(_) | Command::Live { .. }) | None => Err(Failure::Words),
    }
}

// Runs the command, if it needs no threads; other words are no command line.
fn plain_end<R: Source, W: Sink>(
    alloc: Global,
    ask: Option<Command>,
    source: &mut R,
    sink: &mut W,
) -> Result<u8, Failure>
    requires range { IfSome ask IsInRange }
    ensures { EndsAs Untold (if_served is_plain ask) (moved R.left R.faults source.old source.new)
        (moved W.written W.faults sink.old sink.new) (W.room sink.old) (W.room sink.new) result }
{
    match ask {
        Some(Command::Plain(command)) => {
            let input = read_input(alloc, reads_input(&command), source)?;
            let output = plain::answer(alloc, command, input);
            written(sink, output)
        }
        Some(Command::Live { .. } | Command::Compare { .. }) | None => Err(Failure::Words),
    }
}
