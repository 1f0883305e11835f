//! Commands that wait for nobody: the answer of each to its input.
ghost use Rattle.program_model.specs.CommandLimits.{IsPlainInRange};
ghost use Rattle.program_model.specs.Commands.{IsPlainAnswer};
ghost use Rattle.command_texts.specs.Making.{Makes};

use command_texts::{checking, generation, run, script, shaping};
use fitted_chooser::chooser::ProgramChooser;
use lead_texts::leading;
use program_model::command::PlainCommand;
use program_model::ending::{Output, Stop};
use std::alloc::Global;

/// The answer of the command to its input. A command that reads no input is to be given an empty one, which it ignores.
pub fn answer(alloc: Global, command: PlainCommand, input: Vec<u8>) -> Result<Output, Stop>
    requires { IsPlainInRange command }
    ensures { Makes (IsPlainAnswer command input.items) result }
{
    match command {
        PlainCommand::Script { print } => {
            let output = script::answer::<ProgramChooser>(alloc, print, input.as_slice());
            drop(input);
            output
        }
        PlainCommand::Run {
            options,
            slot,
            print,
        } => run::answer(alloc, options, slot, print, input),
        PlainCommand::Gen {
            seed,
            tenants,
            requests,
            print,
        } => {
            drop(input);
            generation::answer(alloc, seed, tenants, requests, print)
        }
        PlainCommand::Check { explain } => checking::answer(alloc, explain, input),
        PlainCommand::Lead { of, over } => leading::answer(alloc, of, over, input),
        PlainCommand::Shape { rate, burst } => shaping::answer(alloc, rate, burst, input),
    }
}
