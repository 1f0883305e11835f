//! Readers.
ghost use Rattle.std.specs.Prelude.{◌≡◌, ◌≤◌, [], ◌∷◌, ◌++◌, length, Some, MatchOption};
ghost use Rattle.fq_model.specs.History.{history_of};
ghost use Rattle.fq_model.specs.Status.{status_of};
ghost use Rattle.history_lock.specs.Histories.{IsPrefix};
ghost use Rattle.status_board.specs.declared.table.Stage.TheVariants.{Idle, Reading};
ghost use Rattle.status_board.specs.Boards.{IsPlaceAt, IsReaderOf};
ghost use Rattle.status_board.specs.Plays.{HasPeeked};
ghost use Rattle.status_board.specs.Words.{status_in};

use crate::answers::Answers;
use crate::board::Board;
use crate::plays::{Check, Glance, Look, Peek};
use crate::table::{BoardTable, HIGH, LOW, MOMENT, Place, RUNNING, VERSION, WAITING};
use crate::words::joined;
use fq_model::parts::Status;
use std::marker::Model;
use std::snapshot::Snapshot;

/// A right to read one board. It is no copy of another, and must be spent: by `Board::join`, which ties the history
/// that it has seen to the writer's, or by `end`. Contracts see all its answers, a list that holds nothing when it
/// runs.
pub struct Reader {
    pub(crate) place: Place,
    pub(crate) status: Status,
    pub(crate) answers: Answers,
}

impl Model for Reader {
    ghost use Rattle.status_board.specs.Boards.{ReaderView, ReaderRests, reader_view};

    ghost Value = { ReaderView };

    ghost view = { λ r. reader_view r.place.table_id r.place.me r.answers };

    ghost invariant = { λ r. ReaderRests r.status r.place.me };
}

// The words but for the version, as a look finds them.
#[derive(Drop)]
struct Found {
    moment: u64,
    low: u64,
    high: u64,
    waiting: u64,
    running: u64,
}

fn find(table: &BoardTable, place: &mut Place) -> Found
    requires own { IsPlaceAt place.old.table_id table.now.shared.table_id }
    requires reading { place.old.me.0.stage ≡ Reading }
    requires config { place.old.me.0.config ≡ Some table.now.shared.key.value }
    ensures own { place.new.table_id ≡ place.old.table_id }
    ensures found { HasPeeked place.old.me
        (result.moment ∷ result.low ∷ result.high ∷ result.waiting ∷ result.running ∷ []) place.new.me }
{
    let shared = &table.shared;
    let moment = shared.load::<Peek>(place, MOMENT);
    let low = shared.load::<Peek>(place, LOW);
    let high = shared.load::<Peek>(place, HIGH);
    let waiting = shared.load::<Peek>(place, WAITING);
    let running = shared.load::<Peek>(place, RUNNING);
    Found {
        moment,
        low,
        high,
        waiting,
        running,
    }
}

// One try. It is None where the writer was at work.
fn try_read(table: &BoardTable, place: &mut Place) -> Option<Status>
    requires own { IsPlaceAt place.old.table_id table.now.shared.table_id }
    requires idle { (place.old.me.0.stage ≡ Idle) × (place.old.me.1 ≡ []) }
    requires config { place.old.me.0.config ≡ Some table.now.shared.key.value }
    ensures own { place.new.table_id ≡ place.old.table_id }
    ensures idle { (place.new.me.0.stage ≡ Idle) × (place.new.me.1 ≡ []) }
    ensures config { place.new.me.0.config ≡ place.old.me.0.config }
    ensures seen { MatchOption result (place.new.me.0.seen ≡ place.old.me.0.seen)
        (λ s. (status_in place.new.me.0.config place.new.me.0.seen ≡ Some s)
        × IsPrefix place.old.me.0.seen place.new.me.0.seen) }
{
    let version = table.shared.load::<Look>(place, VERSION);
    if version % 2 != 0 {
        return None;
    }
    let found = find(table, place);
    if table.shared.load::<Check>(place, VERSION) != version {
        return None;
    }
    Some(Status {
        entries: version / 2,
        moment: found.moment,
        vtime: joined(found.low, found.high),
        waiting: found.waiting as u32,
        running: found.running as u32,
    })
}

impl Reader {
    /// The status of the history that it has then seen. It waits for nobody: where the writer is at work it repeats its
    /// last answer.
    pub fn read(&mut self, board: &Board) -> Status
        requires own { IsReaderOf board.now self.old }
        ensures own { IsReaderOf board.now self.new }
        ensures status { result ≡ status_of board.now.config (history_of self.new.seen) }
        ensures seen { IsPrefix self.old.seen self.new.seen }
        ensures noted { self.new.answers ≡ self.old.answers ++ result ∷ [] }
    {
        if let Some(status) = try_read(&board.table, &mut self.place) {
            self.status = status;
        }
        let status = self.status;
        self.answers = Answers::Next(Snapshot::of(&status), Snapshot::of(&self.answers));
        status
    }

    /// How many entries are shown, or were just before. It is no answer of the reader, and it has then seen no more.
    pub fn shown(&mut self, board: &Board) -> u64
        requires own { IsReaderOf board.now self.old }
        ensures same { self.new ≡ self.old }
        ensures shown { length self.old.seen ≤ result }
    {
        board.table.shared.load::<Glance>(&mut self.place, VERSION) / 2
    }

    /// Lets the reader go.
    pub fn end(self) {
        let Reader {
            place,
            status: _,
            answers: _,
        } = self;
        drop(place);
    }
}
