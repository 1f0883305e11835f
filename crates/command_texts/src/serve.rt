//! The calls of a script, answered as they are read.
ghost use Rattle.std.specs.Prelude.{◌≡◌, [], IfOk, IfErr, OnOk};
ghost use Rattle.program_model.specs.Script.{call_of_words};
ghost use Rattle.journal_text.specs.Body.{said_below};
ghost use Rattle.journal_text.specs.Reading.{IsFirstFault};
ghost use Rattle.command_texts.specs.Serving.{IsBodyAnswered};

use fq_model::config::Checked;
use fq_model::event::Call;
use journal_text::body::Body;
use journal_text::fault::ScriptFault;
use journal_text::replies::reply_line;
use sched_journal::History;
use sched_state::{Scheduler, answer};
use std::alloc::Global;
use tag_rules::chooser::Chooser;

/// The history of the calls of a script, and the text of their replies, or none.
#[derive(Drop)]
pub struct Served {
    pub text: Vec<u8>,
    pub history: History,
}

/// Opens a scheduler, and makes the calls of a script's body on it as they are read. Their replies are kept as text if
/// they are asked for. Where a line is no call, nothing is left of the calls before it. An answer that memory ran out
/// says nothing of the text.
pub fn serve<'a, X: Chooser + Drop>(
    alloc: Global,
    config: Checked,
    body: Body<'a, Call>,
    tells: bool,
) -> Result<Served, ScriptFault>
    ensures served { IfOk result (λ s. IsBodyAnswered config (said_below call_of_words body.entry) tells
        s.text.items s.history.past) }
    ensures same { IfOk result (λ s. s.history.config ≡ config) }
    ensures fault { IfErr result (λ f. IsFirstFault f (said_below call_of_words body.entry)) }
{
    let scheduler = Scheduler::open(alloc, config)?;
    serve_by::<X>(alloc, scheduler, body, tells)
}

// Makes the calls of a script's body on a scheduler that was just opened, as they are read.
fn serve_by<'a, X: Chooser + Drop>(
    alloc: Global,
    mut scheduler: Scheduler<u64, X>,
    body: Body<'a, Call>,
    tells: bool,
) -> Result<Served, ScriptFault>
    requires { scheduler.past ≡ [] }
    ensures served { IfOk result (λ s. IsBodyAnswered scheduler.config (said_below call_of_words body.entry) tells
        s.text.items s.history.past) }
    ensures same { IfOk result (λ s. s.history.config ≡ scheduler.config) }
    ensures fault { IfErr result (λ f. IsFirstFault f (said_below call_of_words body.entry)) }
{
    let mut text = Vec::new(alloc);
    match answer_all(body, tells, &mut scheduler, &mut text) {
        Ok(()) => Ok(Served {
            text,
            history: scheduler.into_history(),
        }),
        Err(fault) => {
            drop(scheduler);
            Err(fault)
        }
    }
}

// Makes the calls of a body, and keeps their replies as text if they are asked for.
fn answer_all<'a, X: Chooser>(
    mut body: Body<'a, Call>,
    tells: bool,
    scheduler: &mut Scheduler<u64, X>,
    text: &mut Vec<u8>,
) -> Result<(), ScriptFault>
    requires opened { scheduler.old.past ≡ [] }
    requires empty { text.old.items ≡ [] }
    ensures served { OnOk result (IsBodyAnswered scheduler.old.config (said_below call_of_words body.entry) tells
        text.new.items scheduler.new.past) }
    ensures same { scheduler.new.config ≡ scheduler.old.config }
    ensures fault { IfErr result (λ f. IsFirstFault f (said_below call_of_words body.entry)) }
{
    'calls: while let Some(call) = body.read_next()? {
        let reply = answer(scheduler, call);
        if tells && reply_line(reply, text).is_err() {
            return Err(ScriptFault::NoMemory);
        }
    }
    Ok(())
}
