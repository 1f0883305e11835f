//! `shape`: a trace as a bucket of tokens for each tenant lets its requests through.
ghost use Rattle.std.specs.Prelude.{◌≡◌, Some, IfOk, string_bytes};
ghost use Rattle.fq_model.specs.declared.limits.TheConstants.{GREATEST_BURST, GREATEST_RATE};
ghost use Rattle.fq_model.specs.Limits.{IsWithin};
ghost use Rattle.program_model.specs.Answer.{Message, message_line};
ghost use Rattle.program_model.specs.Conforms.{too_big};
ghost use Rattle.program_model.specs.ShapeCommand.{big_text, late_text, IsBigAnswer, IsShapedAnswer, IsShapeAnswer};
ghost use Rattle.program_model.specs.TraceText.{IsLawfulTrace};
ghost use Rattle.command_texts.specs.Making.{Makes, IsStop};

use crate::messages::told;
use crate::traces::trace;
use program_model::ending::{Output, Stop};
use std::alloc::{AllocError, Global};
use trace_reader::printing::print;
use trace_reader::trace::Trace;
use trace_shape::fault::ShapeFault;
use trace_shape::shaping::shape;

/// The answer of `shape` to its input, which is given up before the trace is shaped.
pub fn answer(alloc: Global, rate: u64, burst: u64, input: Vec<u8>) -> Result<Output, Stop>
    requires rate { IsWithin 1 GREATEST_RATE rate }
    requires burst { IsWithin 1 GREATEST_BURST burst }
    ensures { Makes (IsShapeAnswer rate burst input.items) result }
{
    let trace = trace(alloc, input)?;
    let output = shaped(alloc, &trace, rate, burst);
    drop(trace);
    output
}

// The answer from a trace.
fn shaped(alloc: Global, trace: &Trace, rate: u64, burst: u64) -> Result<Output, Stop>
    requires lawful { IsLawfulTrace trace.now }
    requires rate { IsWithin 1 GREATEST_RATE rate }
    requires burst { IsWithin 1 GREATEST_BURST burst }
    ensures { Makes (IsShapedAnswer rate burst trace.now) result }
{
    match shape(alloc, trace, rate, burst) {
        Ok(shaped) => {
            let text = print(alloc, &shaped);
            drop(shaped);
            Ok(Output::success(text?))
        }
        Err(ShapeFault::TooBig(r)) => Err(too_big(alloc, trace, burst, r)),
        Err(ShapeFault::TooLate(r)) => Err(too_late(alloc, r)),
        Err(ShapeFault::NoMemory) => Err(Stop::NoMemory),
    }
}

// A message with the size of the first row that declares more than a bucket holds.
fn too_big(alloc: Global, trace: &Trace, burst: u64, r: u32) -> Stop
    requires { too_big trace.now burst ≡ Some r }
    ensures { IsStop (IsBigAnswer trace.now burst r) result }
{
    let declared = trace.rows()[r as usize].declared;
    told(alloc, 7, big_text(alloc, r, declared, burst))
}

fn big_text(alloc: Global, r: u32, declared: u64, burst: u64) -> Result<String, AllocError>
    ensures { IfOk result (λ text. string_bytes text ≡ big_text r declared burst) }
{
    let text = format!(in alloc; "request {r} has size {declared}, more than the burst {burst}")?;
    Ok(text)
}

// Of a row that would come too late, a message that says so.
fn too_late(alloc: Global, r: u32) -> Stop
    ensures { IsStop (λ answer. answer ≡ Message 7 (message_line (late_text r))) result }
{
    told(alloc, 7, late_text(alloc, r))
}

fn late_text(alloc: Global, r: u32) -> Result<String, AllocError>
    ensures { IfOk result (λ text. string_bytes text ≡ late_text r) }
{
    let text = format!(in alloc; "request {r} would come after 100000000000000")?;
    Ok(text)
}
