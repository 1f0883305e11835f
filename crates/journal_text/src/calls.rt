//! Scripts, whose lines below the head are calls.
ghost use Rattle.std.specs.Prelude.{◌≡◌, ◌<◌, codes, Ok, IfOk, IfErr};
ghost use Rattle.program_model.specs.Document.{document_of};
ghost use Rattle.program_model.specs.Script.{submit_of, take_of, report_of, done_of, close_of, weight_of};
ghost use Rattle.program_model.specs.Script.{workers_of, withdraw_of, fixed_call_of, changing_call_of};
ghost use Rattle.program_model.specs.Script.{withdrawing_call_of, call_of_words, script_of};
ghost use Rattle.journal_text.specs.Body.{IsOpened, IsHeadFault, DividesText};
ghost use Rattle.journal_text.specs.Reading.{IsFirstFault};

use crate::body::Line;
use crate::document::Document;
use crate::fault::ScriptFault;
use crate::reading::{Opened, open_document, read_document};
use crate::words::Words;
use fq_model::event::Call;
use program_model::fault::ScriptKind;
use program_model::version::Version;
use std::alloc::Global;

/// A script: a document whose body is the calls in order.
pub type Script = Document<Call>;

#[tactic(auto, unfolding(program_model::specs::Script::submit_of))]
fn submit(words: &Words) -> Result<Call, ScriptKind>
    ensures { result ≡ submit_of words.now }
{
    words.expect_count(7)?;
    let who = words.index_at(1)?;
    let moment = words.number_at(2)?;
    let tenant = words.index_at(3)?;
    let kind = words.index_at(4)?;
    let declared = words.number_at(5)?;
    let label = words.number_at(6)?;
    Ok(Call::Submit {
        who,
        moment,
        tenant,
        kind,
        declared,
        label,
    })
}

#[tactic(auto, unfolding(program_model::specs::Script::take_of))]
fn take(words: &Words) -> Result<Call, ScriptKind>
    ensures { result ≡ take_of words.now }
{
    words.expect_count(4)?;
    let who = words.index_at(1)?;
    let moment = words.number_at(2)?;
    let worker = words.index_at(3)?;
    Ok(Call::Take {
        who,
        moment,
        worker,
    })
}

#[tactic(auto, unfolding(program_model::specs::Script::report_of))]
fn report(words: &Words) -> Result<Call, ScriptKind>
    ensures { result ≡ report_of words.now }
{
    words.expect_count(5)?;
    let who = words.index_at(1)?;
    let moment = words.number_at(2)?;
    let worker = words.index_at(3)?;
    let used = words.number_at(4)?;
    Ok(Call::Report {
        who,
        moment,
        worker,
        used,
    })
}

#[tactic(auto, unfolding(program_model::specs::Script::done_of))]
fn done(words: &Words) -> Result<Call, ScriptKind>
    ensures { result ≡ done_of words.now }
{
    words.expect_count(5)?;
    let who = words.index_at(1)?;
    let moment = words.number_at(2)?;
    let worker = words.index_at(3)?;
    let cost = words.number_at(4)?;
    Ok(Call::Done {
        who,
        moment,
        worker,
        cost,
    })
}

#[tactic(auto, unfolding(program_model::specs::Script::close_of))]
fn close(words: &Words) -> Result<Call, ScriptKind>
    ensures { result ≡ close_of words.now }
{
    words.expect_count(3)?;
    let who = words.index_at(1)?;
    let moment = words.number_at(2)?;
    Ok(Call::Close { who, moment })
}

#[tactic(auto, unfolding(program_model::specs::Script::weight_of))]
fn weight(words: &Words) -> Result<Call, ScriptKind>
    ensures { result ≡ weight_of words.now }
{
    words.expect_count(5)?;
    let who = words.index_at(1)?;
    let moment = words.number_at(2)?;
    let tenant = words.index_at(3)?;
    let weight = words.index_at(4)?;
    Ok(Call::Weight {
        who,
        moment,
        tenant,
        weight,
    })
}

#[tactic(auto, unfolding(program_model::specs::Script::workers_of))]
fn workers(words: &Words) -> Result<Call, ScriptKind>
    ensures { result ≡ workers_of words.now }
{
    words.expect_count(4)?;
    let who = words.index_at(1)?;
    let moment = words.number_at(2)?;
    let count = words.index_at(3)?;
    Ok(Call::Workers { who, moment, count })
}

#[tactic(auto, unfolding(program_model::specs::Script::withdraw_of))]
fn withdraw(words: &Words) -> Result<Call, ScriptKind>
    ensures { result ≡ withdraw_of words.now }
{
    words.expect_count(4)?;
    let who = words.index_at(1)?;
    let moment = words.number_at(2)?;
    let request = words.index_at(3)?;
    Ok(Call::Withdraw {
        who,
        moment,
        request,
    })
}

// The call of a line, where neither weights nor the number of workers change.
#[tactic(auto, unfolding(program_model::specs::Script::fixed_call_of))]
fn fixed_call(words: &Words) -> Result<Call, ScriptKind>
    ensures { result ≡ fixed_call_of words.now }
{
    if words.begins_with(b"submit") {
        submit(words)
    } else if words.begins_with(b"take") {
        take(words)
    } else if words.begins_with(b"report") {
        report(words)
    } else if words.begins_with(b"done") {
        done(words)
    } else if words.begins_with(b"close") {
        close(words)
    } else {
        Err(ScriptKind::Word)
    }
}

// The call of a line, where weights and the number of workers may change.
#[tactic(auto, unfolding(program_model::specs::Script::changing_call_of))]
fn changing_call(words: &Words) -> Result<Call, ScriptKind>
    ensures { result ≡ changing_call_of words.now }
{
    if words.begins_with(b"weight") {
        weight(words)
    } else if words.begins_with(b"workers") {
        workers(words)
    } else {
        fixed_call(words)
    }
}

// The call of a line, where these may change and requests may be withdrawn.
#[tactic(auto, unfolding(program_model::specs::Script::withdrawing_call_of))]
fn withdrawing_call(words: &Words) -> Result<Call, ScriptKind>
    ensures { result ≡ withdrawing_call_of words.now }
{
    if words.begins_with(b"withdraw") {
        withdraw(words)
    } else {
        changing_call(words)
    }
}

// The call of a line of this version.
fn call(version: Version, words: &Words) -> Result<Call, ScriptKind>
    ensures { result ≡ call_of_words version words.now }
{
    match version {
        Version::First => fixed_call(words),
        Version::Second => changing_call(words),
        Version::Third => withdrawing_call(words),
    }
}

impl Line for Call {
    ghost title = { codes "script" };

    ghost reader = { call_of_words };

    fn version(line: &[u8]) -> Option<Version> {
        if line == b"script 1".as_slice() {
            Some(Version::First)
        } else if line == b"script 2".as_slice() {
            Some(Version::Second)
        } else if line == b"script 3".as_slice() {
            Some(Version::Third)
        } else {
            None
        }
    }

    fn read(version: Version, words: &Words) -> Result<Call, ScriptKind> {
        call(version, words)
    }
}

/// A script whose head is read, and whose calls are left to be read one at a time.
pub type OpenScript<'a> = Opened<'a, Call>;

/// Reads the head of a script, up to its last kind, or names the head's first fault. A scheduler can be
/// opened with it. An answer that memory ran out says nothing of the text.
pub fn open_script<'a>(alloc: Global, bytes: &'a [u8]) -> Result<OpenScript<'a>, ScriptFault>
    ensures ok { IfOk result (λ o. IsOpened (λ reader. document_of (codes "script") reader bytes.now) o.head o.body) }
    ensures divided { IfOk result (λ o. DividesText (codes "script") bytes.now o.head o.body) }
    ensures fault { IfErr result (λ f.
        IsHeadFault f (λ reader. document_of {A = Call} (codes "script") reader bytes.now)) }
{
    open_document(alloc, bytes)
}

/// Reads a script, or names its first fault. An answer that memory ran out says nothing of the text.
pub fn read_script(alloc: Global, bytes: &[u8]) -> Result<Script, ScriptFault>
    ensures ok { IfOk result (λ s. script_of bytes.now ≡ Ok s) }
    ensures fault { IfErr result (λ f. IsFirstFault f (script_of bytes.now)) }
{
    read_document(alloc, bytes)
}
