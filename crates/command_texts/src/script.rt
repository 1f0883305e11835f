//! `script`: the calls of a script, and the answer to them.
ghost use Rattle.std.specs.Prelude.{ℕ, ◌≡◌, List, ◌++◌, [], if◌then◌else◌, IfOk, OnOk};
ghost use Rattle.program_model.specs.JournalText.{journal_text};
ghost use Rattle.program_model.specs.Script.{call_of_words};
ghost use Rattle.program_model.specs.ScriptCommand.{IsScriptAnswer};
ghost use Rattle.journal_text.specs.Body.{said_below};
ghost use Rattle.tenant_table.specs.Names.{names_of};
ghost use Rattle.command_texts.specs.Making.{Makes};
ghost use Rattle.command_texts.specs.Serving.{OpensAs, IsBodyAnswer, tells_replies, tells_journal};

use crate::messages::document_stop;
use crate::serve::{Served, serve};
use fq_model::config::Checked;
use fq_model::event::Call;
use journal_text::body::Body;
use journal_text::calls::{OpenScript, open_script};
use journal_text::printing::add_journal;
use journal_text::reading::Opened;
use program_model::command::ScriptPrint;
use program_model::ending::{Output, Stop};
use sched_journal::History;
use std::alloc::{AllocError, Global};
use tag_rules::chooser::Chooser;
use tenant_table::kinds::Kinds;
use tenant_table::tenants::Tenants;

/// The answer of `script` to its input: the replies to its calls, the journal that they leave, or both. The scheduler
/// is over any chooser.
pub fn answer<X: Chooser + Drop>(
    alloc: Global,
    what: ScriptPrint,
    input: &[u8],
) -> Result<Output, Stop>
    ensures { Makes (IsScriptAnswer what input.now) result }
{
    match open_script(alloc, input) {
        Ok(script) => opened::<X>(alloc, what, script),
        Err(fault) => Err(document_stop(alloc, "script", fault)),
    }
}

// The answer to a script whose head is read, whatever the input was.
fn opened<X: Chooser + Drop>(
    alloc: Global,
    what: ScriptPrint,
    script: OpenScript,
) -> Result<Output, Stop>
    ensures { (input : List ℕ) → OpensAs input script.entry.head script.entry.body
        → Makes (IsScriptAnswer what input) result }
{
    let Opened { head, body } = script;
    let (config, tenants, kinds, _) = head.into_parts();
    let output = served::<X>(alloc, what, config, body, &tenants, &kinds);
    drop(tenants);
    drop(kinds);
    output
}

// The answer to a script with this configuration, and with these tenants and kinds.
fn served<'a, X: Chooser + Drop>(
    alloc: Global,
    what: ScriptPrint,
    config: Checked,
    body: Body<'a, Call>,
    tenants: &Tenants,
    kinds: &Kinds,
) -> Result<Output, Stop>
    ensures { Makes (IsBodyAnswer what config (names_of tenants.now) kinds.now
        (said_below call_of_words body.entry)) result }
{
    match serve::<X>(alloc, config, body, tells_replies(what)) {
        Ok(served) => Ok(Output::success(told_text(alloc, what, served, tenants, kinds)?)),
        Err(fault) => Err(document_stop(alloc, "script", fault)),
    }
}

// The kept text of the replies, and the journal if it is asked for.
fn told_text(
    alloc: Global,
    what: ScriptPrint,
    served: Served,
    tenants: &Tenants,
    kinds: &Kinds,
) -> Result<Vec<u8>, AllocError>
    ensures { IfOk result (λ text. text.items ≡ served.text.items ++ (if tells_journal what then
        journal_text served.history.config (names_of tenants.now) kinds.now served.history.past else [])) }
{
    let Served { mut text, history } = served;
    let added = add_if_asked(alloc, what, &history, tenants, kinds, &mut text);
    drop(history);
    added?;
    Ok(text)
}

// Appends the journal of a history, where it is asked for.
fn add_if_asked(
    alloc: Global,
    what: ScriptPrint,
    history: &History,
    tenants: &Tenants,
    kinds: &Kinds,
    text: &mut Vec<u8>,
) -> Result<(), AllocError>
    ensures { OnOk result (text.new.items ≡ text.old.items ++ (if tells_journal what then
        journal_text history.now.config (names_of tenants.now) kinds.now history.now.past else [])) }
{
    if !tells_journal(what) {
        return Ok(());
    }
    add_journal(
        alloc,
        history.past(),
        history.config(),
        tenants,
        kinds,
        text,
    )
}

// Whether the replies are asked for.
fn tells_replies(what: ScriptPrint) -> bool
    ensures { result ≡ tells_replies what }
{
    matches!(what, ScriptPrint::Replies | ScriptPrint::Both)
}

// Whether the journal is asked for.
fn tells_journal(what: ScriptPrint) -> bool
    ensures { result ≡ tells_journal what }
{
    matches!(what, ScriptPrint::Journal | ScriptPrint::Both)
}
