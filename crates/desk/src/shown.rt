//! The board of a floor's past, its writer and its readers.
ghost use Rattle.std.specs.Prelude.{◌≡◌, [], IfSome};
ghost use Rattle.std.specs.Arc.{arc_value};
ghost use Rattle.fq_model.specs.History.{history_of};
ghost use Rattle.fq_model.specs.Status.{status_of};
ghost use Rattle.history_lock.specs.Histories.{IsPrefix};
ghost use Rattle.status_board.specs.Boards.{IsReaderOf, IsWriterOf};
ghost use Rattle.desk.specs.Shown.{board_of, Shows, ShowsPart, AreReaders, HaveSeen};

use fq_model::config::Checked;
use fq_model::event::Entry;
use fq_model::job::Job;
use fq_model::parts::Status;
use sched_state::Scheduler;
use status_board::{Board, Reader, Writer};
use std::alloc::Global;
use std::marker::Model;
use std::sync::Arc;
use tag_rules::chooser::Chooser;

/// A board that a desk shares, and the writer that shows a past there.
#[derive(Drop)]
pub(crate) struct Shown {
    board: Arc<Board>,
    writer: Writer,
}

impl Model for Shown {
    ghost use Rattle.std.specs.Arc.{arc_value};
    ghost use Rattle.status_board.specs.Boards.{IsWriterOf};
    ghost use Rattle.desk.specs.Shown.{ShownView, shown_code};

    ghost Value = { ShownView };

    ghost coded = { shown_code };

    ghost view = { λ s. record { board = arc_value s.board; past = s.writer.shown } };

    ghost invariant = { λ s. IsWriterOf (arc_value s.board) s.writer };
}

// Two owners of a board.
fn shared(alloc: Global, board: Board) -> Option<(Arc<Board>, Arc<Board>)>
    ensures { IfSome result (λ r. (arc_value r.0 ≡ board) × (arc_value r.1 ≡ board)) }
{
    let first = Arc::new(alloc, board).ok()?;
    let second = Arc::try_clone(&first).ok()?;
    Some((first, second))
}

/// A board that shows the empty past, for this configuration: the desk's share of it, the floor's share with the
/// writer, and a reader that has seen nothing.
pub(crate) fn show_nothing(alloc: Global, config: &Checked) -> Option<(Arc<Board>, Shown, Reader)>
    ensures board { IfSome result (λ r. (arc_value r.0 ≡ r.1.board) × (r.1.board.config ≡ config.now)) }
    ensures past { IfSome result (λ r. r.1.past ≡ []) }
    ensures reader { IfSome result (λ r. IsReaderOf r.1.board r.2 × (r.2.seen ≡ [])) }
{
    let Ok((board, writer, reader)) = Board::open(alloc, config) else {
        return None;
    };
    let Some((first, second)) = shared(alloc, board) else {
        reader.end();
        return None;
    };
    let shown = Shown {
        board: second,
        writer,
    };
    Some((first, shown, reader))
}

/// Shows the scheduler's past, if it is to be shown.
pub(crate) fn show_past<J: Job + Drop, X: Chooser>(
    shown: &mut Option<Shown>,
    scheduler: &Scheduler<J, X>,
)
    requires { ShowsPart scheduler.now.config scheduler.now.past shown.old }
    ensures past { Shows scheduler.now.config scheduler.now.past shown.new }
    ensures board { board_of shown.new ≡ board_of shown.old }
{
    if let Some(shown) = shown {
        shown.show(scheduler.past(), scheduler.status());
    }
}

impl Shown {
    // Shows a past of which the past shown so far is a prefix.
    fn show(&mut self, past: &[Entry], status: Status)
        requires past { IsPrefix self.old.past past.now }
        requires status { status ≡ status_of self.old.board.config (history_of past.now) }
        ensures { self.new ≡ record { board = self.old.board; past = past.now } }
    {
        self.writer.show(&self.board, past, status);
    }

    // Takes in all readers, and ends the writer.
    fn end(self, readers: Vec<Reader>)
        requires { AreReaders self.board readers.items }
        ensures { HaveSeen self.past readers.items }
    {
        let Shown { board, mut writer } = self;
        join_readers(&board, &mut writer, readers);
        writer.end();
    }
}

// The writer takes in each reader, with the past that it has seen.
fn join_readers(board: &Board, writer: &mut Writer, mut readers: Vec<Reader>)
    requires own { IsWriterOf board.now writer.old }
    requires readers { AreReaders board.now readers.items }
    ensures same { writer.new ≡ writer.old }
    ensures seen { HaveSeen writer.old.shown readers.items }
{
    while let Some(reader) = readers.pop() {
        board.join(writer, reader);
    }
    readers.destroy_empty();
}

/// Ends all readers. Where there is a board, it first takes them in, and ends its writer.
pub(crate) fn end_shown(shown: Option<Shown>, readers: Vec<Reader>)
    requires { IfSome (board_of shown) (λ b. AreReaders b readers.items) }
    ensures { IfSome shown (λ s. HaveSeen s.past readers.items) }
{
    match shown {
        Some(shown) => shown.end(readers),
        None => end_readers(readers),
    }
}

// Ends all readers.
fn end_readers(mut readers: Vec<Reader>) {
    while let Some(reader) = readers.pop() {
        reader.end();
    }
    readers.destroy_empty();
}
