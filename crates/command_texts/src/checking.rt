//! `check`: the verdict on a journal, and why a worker took a request.
ghost use Rattle.std.specs.Prelude.{IfOk};
ghost use Rattle.fq_model.specs.History.{history_of};
ghost use Rattle.fq_model.specs.Rules.{IsLegal};
ghost use Rattle.program_model.specs.CheckCommand.{IsCheckAnswer, IsExplanation, IsJudged};
ghost use Rattle.program_model.specs.Document.{config_of};
ghost use Rattle.command_texts.specs.Making.{Makes};

use crate::messages::document_stop;
use fitted_chooser::chooser::ProgramChooser;
use journal_check::checking::check;
use journal_check::explaining::explain;
use journal_check::printing::{explanation_text, verdict_text};
use journal_check::{Journal, read_journal};
use program_model::ending::{Output, Stop};
use program_model::verdict::Verdict;
use std::alloc::{AllocError, Global};

/// The answer of `check` to its input, which is given up before the journal is judged.
pub fn answer(alloc: Global, asked: Option<u32>, input: Vec<u8>) -> Result<Output, Stop>
    ensures { Makes (IsCheckAnswer asked input.items) result }
{
    let journal = read_journal(alloc, input.as_slice());
    drop(input);
    match journal {
        Ok(journal) => {
            let output = judged(alloc, asked, &journal);
            drop(journal);
            output
        }
        Err(fault) => Err(document_stop(alloc, "journal", fault)),
    }
}

// The answer from a journal.
fn judged(alloc: Global, asked: Option<u32>, journal: &Journal) -> Result<Output, Stop>
    ensures { Makes (IsJudged asked journal.now) result }
{
    let verdict = check::<ProgramChooser>(alloc, journal)?;
    let text = verdict_text(alloc, journal.body(), verdict)?;
    match (verdict, asked) {
        (Verdict::Legal, None) => Ok(Output::success(text)),
        (Verdict::Legal, Some(request)) => {
            let mut text = text;
            let explanation = explanation(alloc, journal, request)?;
            text.extend_from_slice(explanation.as_slice())?;
            Ok(Output::success(text))
        }
        (Verdict::Bad { .. }, _) => Ok(Output { status: 8, text }),
    }
}

// Why a worker took a request of a legal journal, as a text.
fn explanation(alloc: Global, journal: &Journal, request: u32) -> Result<Vec<u8>, AllocError>
    requires { IsLegal (config_of journal.now) (history_of journal.now.body) }
    ensures { IfOk result (λ text. IsExplanation journal.now request text.items) }
{
    let explained = explain::<ProgramChooser>(alloc, journal, request)?;
    explanation_text(alloc, journal.tenants(), request, explained)
}
