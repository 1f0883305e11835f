//! The writer.
ghost use Rattle.std.specs.Prelude.{◌≡◌, ◌<◌, ◌-◌, [], length, slice_index, Some};
ghost use Rattle.fq_model.specs.History.{history_of};
ghost use Rattle.fq_model.specs.Status.{status_of};
ghost use Rattle.history_lock.specs.Histories.{IsPrefix};
ghost use Rattle.status_board.specs.declared.table.Stage.TheVariants.{Rests, Writes};
ghost use Rattle.status_board.specs.Boards.{IsPlaceAt, IsWriterOf};
ghost use Rattle.status_board.specs.Plays.{HasWritten};
ghost use Rattle.status_board.specs.Words.{word_count};

use crate::board::Board;
use crate::plays::{Begin, Next, Publish, Put};
use crate::table::{BoardTable, HIGH, LOW, MOMENT, Place, RUNNING, VERSION, WAITING};
use crate::words::halves;
use fq_model::event::Entry;
use fq_model::parts::Status;
use std::marker::{Brand, Model};

/// The right to write on one board. There is one writer of a board and no copy of it.
#[derive(Drop)]
pub struct Writer {
    pub(crate) place: Place,
    /// The status that is shown.
    pub(crate) status: Status,
}

impl Model for Writer {
    ghost use Rattle.status_board.specs.Boards.{WriterView, WriterRests, writer_view};

    ghost Value = { WriterView };

    ghost view = { λ w. writer_view w.place.table_id w.place.me };

    ghost invariant = { λ w. WriterRests w.status w.place.me };
}

// Writes a word where it differs from the word there. (A write takes several times as long as this comparison.)
fn put(table: &BoardTable, place: &mut Place, word: usize, stands: u64, next: u64)
    requires own { IsPlaceAt place.old.table_id table.now.shared.table_id }
    requires writes { place.old.me.0.stage ≡ Writes }
    requires word { (0 < word) × (word < word_count) }
    requires stands { slice_index place.old.me.0.words (word - 1) ≡ stands }
    ensures own { place.new.table_id ≡ place.old.table_id }
    ensures written { HasWritten place.old.me (word - 1) next place.new.me }
{
    if next != stands {
        table.shared.store::<Put>(place, word, next);
    }
}

// Writes the words of the next history, between two writes of the version.
fn publish<B: Next>(
    table: &BoardTable,
    place: &mut Place,
    shown: Status,
    past: &[Entry],
    status: Status,
)
    requires own { IsPlaceAt place.old.table_id table.now.shared.table_id }
    requires rests { (place.old.me.0.stage ≡ Rests) × (place.old.me.1 ≡ []) }
    requires picked { past.now ≡ B.next }
    requires status { status ≡ status_of table.now.shared.key.value (history_of past.now) }
    requires config { place.old.me.0.config ≡ Some table.now.shared.key.value }
    requires shown { shown ≡ status_of table.now.shared.key.value (history_of place.old.me.0.seen) }
    requires past { IsPrefix place.old.me.0.seen past.now }
    requires longer { length place.old.me.0.seen < length past.now }
    ensures own { place.new.table_id ≡ place.old.table_id }
    ensures rests { (place.new.me.0.stage ≡ Rests) × (place.new.me.1 ≡ []) }
    ensures config { place.new.me.0.config ≡ place.old.me.0.config }
    ensures seen { place.new.me.0.seen ≡ past.now }
{
    let shared = &table.shared;
    let entries = past.len() as u64;
    let (shown_low, shown_high) = halves(shown.vtime);
    let (low, high) = halves(status.vtime);
    shared.store::<Begin>(place, VERSION, 2 * shown.entries + 1);
    put(table, place, MOMENT, shown.moment, status.moment);
    put(table, place, LOW, shown_low, low);
    put(table, place, HIGH, shown_high, high);
    put(
        table,
        place,
        WAITING,
        shown.waiting as u64,
        status.waiting as u64,
    );
    put(
        table,
        place,
        RUNNING,
        shown.running as u64,
        status.running as u64,
    );
    shared.store::<Publish<B>>(place, VERSION, 2 * entries);
}

impl Writer {
    /// Shows the status of a history of which the history shown so far is a prefix. `past` is in order of time, and
    /// only its length is looked at.
    pub fn show(&mut self, board: &Board, past: &[Entry], status: Status)
        requires own { IsWriterOf board.now self.old }
        requires past { IsPrefix self.old.shown past.now }
        requires status { status ≡ status_of board.now.config (history_of past.now) }
        ensures own { IsWriterOf board.now self.new }
        ensures shown { self.new.shown ≡ past.now }
    {
        if past.len() as u64 == self.status.entries {
            return;
        }
        publish::<Brand>(&board.table, &mut self.place, self.status, past, status);
        self.status = status;
    }

    /// Ends the writer: the board still shows its status.
    pub fn end(self) {
        drop(self);
    }
}
