//! Reads the input of a command from a source.
ghost use Rattle.std.specs.Prelude.{◌≡◌, ◌≤◌, IfOk, IfErr};
ghost use Rattle.program_model.specs.declared.command.Command.TheVariants.{Plain};
ghost use Rattle.program_model.specs.Commands.{reads_input};
ghost use Rattle.program_model.specs.Program.{moved};
ghost use Rattle.twodfq_main.specs.Inputs.{IsInput, IsNoInput};

use fq_io::{Source, read_all};
use program_model::command::PlainCommand;
use program_model::ending::Failure;
use std::alloc::Global;

/// The greatest length of an input, in bytes.
pub const GREATEST_INPUT: u64 = 67108864;

/// Whether the command reads an input.
pub fn reads_input(command: &PlainCommand) -> bool
    ensures { result ≡ reads_input (Plain command.now) }
{
    !matches!(command, PlainCommand::Gen { .. })
}

/// Reads a source to its end, where an input is to be read; the input is empty where none is.
pub fn read_input<R: Source>(alloc: Global, reads: bool, source: &mut R) -> Result<Vec<u8>, Failure>
    ensures input { IfOk result (λ input. IsInput reads (moved R.left R.faults source.old source.new) input.items) }
    ensures none { IfErr result (IsNoInput reads (moved R.left R.faults source.old source.new)) }
    ensures later { R.faults source.old ≤ R.faults source.new }
{
    if !reads {
        return Ok(Vec::new(alloc));
    }
    let input = read_all(alloc, source, GREATEST_INPUT)?;
    Ok(input)
}
