//! The commands.
ghost use Rattle.std.specs.Prelude.{◌≡◌, ◌≤◌, IfSome, [], ◌∷◌, map, unwrap_or, slice_index_or};
ghost use Rattle.std.specs.String.{string_bytes};
ghost use Rattle.program_model.specs.Options.{command_of, command_by};
ghost use Rattle.program_model.specs.CommandLimits.{IsInRange};
ghost use Rattle.program_model.specs.CommandOptions.{number_given, name_given};
ghost use Rattle.program_model.specs.Commands.{built_commands};
ghost use Rattle.program_model.specs.RunLimits.{AreInRange};
ghost use Rattle.program_model.specs.TraceCommand.{run_options_of};
ghost use Rattle.program_model.specs.ScriptCommand.{script_row};
ghost use Rattle.program_model.specs.RunCommand.{run_row};
ghost use Rattle.program_model.specs.LiveCommand.{live_row};
ghost use Rattle.program_model.specs.GenCommand.{gen_row};
ghost use Rattle.program_model.specs.CheckCommand.{check_row};
ghost use Rattle.program_model.specs.LeadCommand.{lead_row};
ghost use Rattle.program_model.specs.ShapeCommand.{shape_row};
ghost use Rattle.program_model.specs.CompareCommand.{compare_row};
ghost use Rattle.command_line.specs.Rows.{IsNumberFrom, IsAtMost, IsNameGiven};

use crate::options::{Value, values_in};
use crate::table::{
    CHECK_OPTIONS, COMPARE_OPTIONS, ESTIMATORS, GEN_OPTIONS, GEN_PRINTS, HISTORY_PRINTS,
    LEAD_OPTIONS, LIVE_OPTIONS, POLICIES, SCRIPT_OPTIONS, SCRIPT_PRINTS, SHAPE_OPTIONS,
    TRACE_OPTIONS,
};
use fq_model::config::{Estimator, Policy};
use fq_model::limits::{GREATEST_COST, TEXT_WORKERS};
use program_model::argument::Argument;
use program_model::command::{
    Command, GenPrint, HistoryPrint, LiveOptions, PlainCommand, ScriptPrint,
};
use program_model::compare::CompareOptions;
use program_model::name::Name;
use program_model::trace::RunOptions;

/// The command that words ask for, without the program's name before them. None where they are no line of the table of
/// commands. Takes no memory.
pub fn command(words: &[String]) -> Option<Command>
    ensures asked { result ≡ command_of built_commands (map string_bytes words.now) }
    ensures range { IfSome result IsInRange }
{
    let (word, words) = words.split_first()?;
    match word.as_str() {
        "script" => script_command(words),
        "run" => run_command(words),
        "live" => live_command(words),
        "gen" => gen_command(words),
        "check" => check_command(words),
        "lead" => lead_command(words),
        "shape" => shape_command(words),
        "compare" => compare_command(words),
        _ => None,
    }
}

// `script`, by the words after it.
fn script_command(words: &[String]) -> Option<Command>
    ensures asked { result ≡ command_by (map string_bytes words.now) script_row }
    ensures range { IfSome result IsInRange }
{
    let [print] = values_in::<1>(&SCRIPT_OPTIONS, words)?;
    let print = choice(&SCRIPT_PRINTS, print, ScriptPrint::Replies);
    Some(Command::Plain(PlainCommand::Script { print }))
}

// `run`, by the words after it.
fn run_command(words: &[String]) -> Option<Command>
    ensures asked { result ≡ command_by (map string_bytes words.now) run_row }
    ensures range { IfSome result IsInRange }
{
    let [workers, policy, estimate, initial, refresh, slot, print] = values_in::<7>(
        &TRACE_OPTIONS,
        words,
    )?;
    Some(Command::Plain(PlainCommand::Run {
        options: run_options(workers, policy, estimate, initial, refresh),
        slot: number(slot),
        print: choice(&HISTORY_PRINTS, print, HistoryPrint::Both),
    }))
}

// `live`, by the words after it.
fn live_command(words: &[String]) -> Option<Command>
    ensures asked { result ≡ command_by (map string_bytes words.now) live_row }
    ensures range { IfSome result IsInRange }
{
    let [
        workers,
        policy,
        estimate,
        initial,
        refresh,
        slot,
        print,
        watch,
    ] = values_in::<8>(&LIVE_OPTIONS, words)?;
    let options = LiveOptions {
        run: run_options(workers, policy, estimate, initial, refresh),
        slot: number(slot),
        print: choice(&HISTORY_PRINTS, print, HistoryPrint::Both),
        watch: number(watch) as u32,
    };
    Some(Command::Live { options })
}

// The options of a run of a trace, by these values.
fn run_options(
    workers: Value,
    policy: Value,
    estimate: Value,
    initial: Value,
    refresh: Value,
) -> RunOptions
    requires workers { IsNumberFrom 1 TEXT_WORKERS workers }
    requires initial { IsNumberFrom 1 GREATEST_COST initial }
    requires refresh { IsNumberFrom 0 GREATEST_COST refresh }
    ensures value { result ≡ run_options_of (workers ∷ policy ∷ estimate ∷ initial ∷ refresh ∷ []) }
    ensures range { AreInRange result }
{
    RunOptions {
        workers: number(workers) as u32,
        policy: choice(&POLICIES, policy, Policy::TwoDfq),
        estimate: choice(&ESTIMATORS, estimate, Estimator::Pessimistic),
        initial: number(initial),
        refresh: number(refresh),
    }
}

// `gen`, by the words after it.
fn gen_command(words: &[String]) -> Option<Command>
    ensures asked { result ≡ command_by (map string_bytes words.now) gen_row }
    ensures range { IfSome result IsInRange }
{
    let [seed, tenants, requests, print] = values_in::<4>(&GEN_OPTIONS, words)?;
    Some(Command::Plain(PlainCommand::Gen {
        seed: number(seed),
        tenants: number(tenants) as u32,
        requests: number(requests) as u32,
        print: choice(&GEN_PRINTS, print, GenPrint::Trace),
    }))
}

// `check`, by the words after it.
fn check_command(words: &[String]) -> Option<Command>
    ensures asked { result ≡ command_by (map string_bytes words.now) check_row }
    ensures range { IfSome result IsInRange }
{
    let [explain] = values_in::<1>(&CHECK_OPTIONS, words)?;
    let explain = request_number(explain);
    Some(Command::Plain(PlainCommand::Check { explain }))
}

// The number of a request, if one is given.
fn request_number(value: Value) -> Option<u32>
    requires { IsAtMost 4294967295 value }
    ensures { result ≡ number_given value }
{
    match value {
        Some(Argument::Number(number)) => Some(number as u32),
        Some(Argument::Name(_)) | None => None,
    }
}

// `lead`, by the words after it.
fn lead_command(words: &[String]) -> Option<Command>
    ensures asked { result ≡ command_by (map string_bytes words.now) lead_row }
    ensures range { IfSome result IsInRange }
{
    let [of, over] = values_in::<2>(&LEAD_OPTIONS, words)?;
    Some(Command::Plain(PlainCommand::Lead {
        of: name(of),
        over: name(over),
    }))
}

// `shape`, by the words after it.
fn shape_command(words: &[String]) -> Option<Command>
    ensures asked { result ≡ command_by (map string_bytes words.now) shape_row }
    ensures range { IfSome result IsInRange }
{
    let [rate, burst] = values_in::<2>(&SHAPE_OPTIONS, words)?;
    Some(Command::Plain(PlainCommand::Shape {
        rate: number(rate),
        burst: number(burst),
    }))
}

// `compare`, by the words after it.
fn compare_command(words: &[String]) -> Option<Command>
    ensures asked { result ≡ command_by (map string_bytes words.now) compare_row }
    ensures range { IfSome result IsInRange }
{
    let [workers, initial, refresh, slot] = values_in::<4>(&COMPARE_OPTIONS, words)?;
    let options = CompareOptions {
        workers: number(workers) as u32,
        initial: number(initial),
        refresh: number(refresh),
        slot: number(slot),
    };
    Some(Command::Compare { options })
}

// The item at the place that a value gives, or the default past the end.
fn choice<T: Copy>(all: &[T], place: Value, default: T) -> T
    ensures { result ≡ slice_index_or all.now (unwrap_or (number_given place) 0) default }
{
    all.get(number(place) as usize).copied().unwrap_or(default)
}

// The number that a value is, or 0.
fn number(value: Value) -> u64
    ensures { result ≡ unwrap_or (number_given value) 0 }
{
    match value {
        Some(Argument::Number(number)) => number,
        Some(Argument::Name(_)) | None => 0,
    }
}

// The name that a value is.
fn name(value: Value) -> Name
    requires { IsNameGiven value }
    ensures { result ≡ name_given value }
{
    match &value {
        Some(Argument::Name(name)) => *name,
        Some(Argument::Number(_)) | None => unreachable!(),
    }
}
