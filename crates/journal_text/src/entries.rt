//! Journals, whose lines below the head are entries.
ghost use Rattle.std.specs.Prelude.{◌≡◌, ◌<◌, codes, Ok, IfOk, IfErr, length};
ghost use Rattle.program_model.specs.Journal.{submit_act, take_act, report_act, done_act, close_act, weight_act};
ghost use Rattle.program_model.specs.Journal.{workers_act, withdraw_act, entry_with, fixed_entry_of, changing_entry_of};
ghost use Rattle.program_model.specs.Journal.{withdrawing_entry_of, entry_of_words, journal_of};
ghost use Rattle.journal_text.specs.Reading.{IsFirstFault};

use crate::body::Line;
use crate::document::Document;
use crate::fault::ScriptFault;
use crate::reading::read_document;
use crate::words::Words;
use fq_model::event::{Act, Entry};
use program_model::fault::ScriptKind;
use program_model::version::Version;
use std::alloc::Global;

/// A journal: a document whose body is the entries of a history in order.
pub type Journal = Document<Entry>;

#[tactic(auto, unfolding(program_model::specs::Journal::entry_with, program_model::specs::Journal::submit_act))]
fn submit(words: &Words) -> Result<Entry, ScriptKind>
    ensures { result ≡ entry_with 8 submit_act words.now }
{
    words.expect_count(8)?;
    let who = words.index_at(1)?;
    let moment = words.number_at(2)?;
    let request = words.index_at(3)?;
    let tenant = words.index_at(4)?;
    let kind = words.index_at(5)?;
    let declared = words.number_at(6)?;
    let label = words.number_at(7)?;
    let act = Act::Submit {
        request,
        tenant,
        kind,
        declared,
        label,
    };
    Ok(Entry { who, moment, act })
}

#[tactic(auto, unfolding(program_model::specs::Journal::entry_with, program_model::specs::Journal::take_act))]
fn take(words: &Words) -> Result<Entry, ScriptKind>
    ensures { result ≡ entry_with 6 take_act words.now }
{
    words.expect_count(6)?;
    let who = words.index_at(1)?;
    let moment = words.number_at(2)?;
    let worker = words.index_at(3)?;
    let request = words.index_at(4)?;
    let estimate = words.number_at(5)?;
    let act = Act::Take {
        worker,
        request,
        estimate,
    };
    Ok(Entry { who, moment, act })
}

#[tactic(auto, unfolding(program_model::specs::Journal::entry_with, program_model::specs::Journal::report_act))]
fn report(words: &Words) -> Result<Entry, ScriptKind>
    ensures { result ≡ entry_with 6 report_act words.now }
{
    words.expect_count(6)?;
    let who = words.index_at(1)?;
    let moment = words.number_at(2)?;
    let worker = words.index_at(3)?;
    let request = words.index_at(4)?;
    let used = words.number_at(5)?;
    let act = Act::Report {
        worker,
        request,
        used,
    };
    Ok(Entry { who, moment, act })
}

#[tactic(auto, unfolding(program_model::specs::Journal::entry_with, program_model::specs::Journal::done_act))]
fn done(words: &Words) -> Result<Entry, ScriptKind>
    ensures { result ≡ entry_with 6 done_act words.now }
{
    words.expect_count(6)?;
    let who = words.index_at(1)?;
    let moment = words.number_at(2)?;
    let worker = words.index_at(3)?;
    let request = words.index_at(4)?;
    let cost = words.number_at(5)?;
    let act = Act::Done {
        worker,
        request,
        cost,
    };
    Ok(Entry { who, moment, act })
}

#[tactic(auto, unfolding(program_model::specs::Journal::entry_with, program_model::specs::Journal::close_act))]
fn close(words: &Words) -> Result<Entry, ScriptKind>
    ensures { result ≡ entry_with 3 close_act words.now }
{
    words.expect_count(3)?;
    let who = words.index_at(1)?;
    let moment = words.number_at(2)?;
    let act = Act::Close;
    Ok(Entry { who, moment, act })
}

#[tactic(auto, unfolding(program_model::specs::Journal::entry_with, program_model::specs::Journal::weight_act))]
fn weight(words: &Words) -> Result<Entry, ScriptKind>
    ensures { result ≡ entry_with 5 weight_act words.now }
{
    words.expect_count(5)?;
    let who = words.index_at(1)?;
    let moment = words.number_at(2)?;
    let tenant = words.index_at(3)?;
    let weight = words.index_at(4)?;
    let act = Act::Weight { tenant, weight };
    Ok(Entry { who, moment, act })
}

#[tactic(auto, unfolding(program_model::specs::Journal::entry_with, program_model::specs::Journal::workers_act))]
fn workers(words: &Words) -> Result<Entry, ScriptKind>
    ensures { result ≡ entry_with 4 workers_act words.now }
{
    words.expect_count(4)?;
    let who = words.index_at(1)?;
    let moment = words.number_at(2)?;
    let count = words.index_at(3)?;
    let act = Act::Workers { count };
    Ok(Entry { who, moment, act })
}

#[tactic(auto, unfolding(program_model::specs::Journal::entry_with, program_model::specs::Journal::withdraw_act))]
fn withdraw(words: &Words) -> Result<Entry, ScriptKind>
    ensures { result ≡ entry_with 4 withdraw_act words.now }
{
    words.expect_count(4)?;
    let who = words.index_at(1)?;
    let moment = words.number_at(2)?;
    let request = words.index_at(3)?;
    let act = Act::Withdraw { request };
    Ok(Entry { who, moment, act })
}

// The entry of a line, where neither weights nor the number of workers change.
#[tactic(auto, unfolding(program_model::specs::Journal::fixed_entry_of))]
fn fixed_entry(words: &Words) -> Result<Entry, ScriptKind>
    ensures { result ≡ fixed_entry_of words.now }
{
    if words.begins_with(b"submit") {
        submit(words)
    } else if words.begins_with(b"take") {
        take(words)
    } else if words.begins_with(b"report") {
        report(words)
    } else if words.begins_with(b"done") {
        done(words)
    } else if words.begins_with(b"close") {
        close(words)
    } else {
        Err(ScriptKind::Word)
    }
}

// The entry of a line, where weights and the number of workers may change.
#[tactic(auto, unfolding(program_model::specs::Journal::changing_entry_of))]
fn changing_entry(words: &Words) -> Result<Entry, ScriptKind>
    ensures { result ≡ changing_entry_of words.now }
{
    if words.begins_with(b"weight") {
        weight(words)
    } else if words.begins_with(b"workers") {
        workers(words)
    } else {
        fixed_entry(words)
    }
}

// The entry of a line, where these may change and requests may be withdrawn.
#[tactic(auto, unfolding(program_model::specs::Journal::withdrawing_entry_of))]
fn withdrawing_entry(words: &Words) -> Result<Entry, ScriptKind>
    ensures { result ≡ withdrawing_entry_of words.now }
{
    if words.begins_with(b"withdraw") {
        withdraw(words)
    } else {
        changing_entry(words)
    }
}

// The entry of a line of this version.
fn entry(version: Version, words: &Words) -> Result<Entry, ScriptKind>
    ensures { result ≡ entry_of_words version words.now }
{
    match version {
        Version::First => fixed_entry(words),
        Version::Second => changing_entry(words),
        Version::Third => withdrawing_entry(words),
    }
}

impl Line for Entry {
    ghost title = { codes "journal" };

    ghost reader = { entry_of_words };

    fn version(line: &[u8]) -> Option<Version> {
        if line == b"journal 1".as_slice() {
            Some(Version::First)
        } else if line == b"journal 2".as_slice() {
            Some(Version::Second)
        } else if line == b"journal 3".as_slice() {
            Some(Version::Third)
        } else {
            None
        }
    }

    fn read(version: Version, words: &Words) -> Result<Entry, ScriptKind> {
        entry(version, words)
    }
}

/// Reads a journal, or names its first fault. An answer that memory ran out says nothing of the text.
pub fn read_journal(alloc: Global, bytes: &[u8]) -> Result<Journal, ScriptFault>
    ensures ok { IfOk result (λ j. journal_of bytes.now ≡ Ok j) }
    ensures fault { IfErr result (λ f. IsFirstFault f (journal_of bytes.now)) }
{
    read_document(alloc, bytes)
}
