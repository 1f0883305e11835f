//! The board.
ghost use Rattle.std.specs.Prelude.{◌≡◌, [], IfOk};
ghost use Rattle.history_lock.specs.Histories.{IsPrefix};
ghost use Rattle.status_board.specs.Boards.{IsWriterOf, IsReaderOf};

use crate::answers::Answers;
use crate::plays::{Confirm, Fork, Merge};
use crate::reader::Reader;
use crate::table::{BoardTable, VERSION};
use crate::writer::Writer;
use atomic_table::Table;
use fq_model::config::Checked;
use fq_model::parts::Status;
use std::alloc::{AllocError, Global};
use std::marker::Model;
use std::snapshot::Snapshot;

/// A status that one writer shows, and any number of readers see, while none waits for another.
#[derive(Drop)]
pub struct Board {
    pub(crate) table: BoardTable,
}

impl Model for Board {
    ghost use Rattle.std.specs.Prelude.{◌≡◌};
    ghost use Rattle.status_board.specs.Boards.{BoardView};
    ghost use Rattle.status_board.specs.Words.{word_count};

    ghost Value = { BoardView };

    ghost view = { λ b. record { table = b.table.shared.table_id; config = b.table.shared.key.value } };

    ghost invariant = { λ b. b.table.shared.table_id.words ≡ word_count };
}

impl Board {
    /// A board that shows the empty history, with its writer and a first reader. It is for histories of schedulers
    /// with this configuration, which is looked at by proofs alone.
    pub fn open(alloc: Global, config: &Checked) -> Result<(Board, Writer, Reader), AllocError>
        ensures config { IfOk result (λ r. r.0.config ≡ config.now) }
        ensures writer { IfOk result (λ r. IsWriterOf r.0 r.1) }
        ensures shown { IfOk result (λ r. r.1.shown ≡ []) }
        ensures reader { IfOk result (λ r. IsReaderOf r.0 r.2) }
        ensures seen { IfOk result (λ r. r.2.seen ≡ []) }
        ensures unread { IfOk result (λ r. r.2.answers ≡ []) }
    {
        let about = Snapshot::of(config);
        let (table, mut place) = Table::of_words(alloc, &[0, 0, 0, 0, 0, 0], &about)?;
        let status = Status {
            entries: 0,
            moment: 0,
            vtime: 0,
            waiting: 0,
            running: 0,
        };
        let reader = Reader {
            place: table.shared.split_seat::<Fork>(&mut place),
            status,
            answers: Answers::Nothing,
        };
        Ok((Board { table }, Writer { place, status }, reader))
    }

    /// Another reader, which has seen the same, and has answered nothing.
    pub fn second(&self, reader: &mut Reader) -> Result<Reader, AllocError>
        requires own { IsReaderOf self.now reader.old }
        ensures same { reader.new ≡ reader.old }
        ensures own { IfOk result (λ r. IsReaderOf self.now r) }
        ensures seen { IfOk result (λ r. r.seen ≡ reader.old.seen) }
        ensures unread { IfOk result (λ r. r.answers ≡ []) }
    {
        Ok(Reader {
            place: self.table.shared.split_seat::<Fork>(&mut reader.place),
            status: reader.status,
            answers: Answers::Nothing,
        })
    }

    /// Spends a reader. The writer learns that it has shown all that the reader had seen.
    pub fn join(&self, writer: &mut Writer, reader: Reader)
        requires own { IsWriterOf self.now writer.old }
        requires reader_own { IsReaderOf self.now reader }
        ensures same { writer.new ≡ writer.old }
        ensures seen { IsPrefix reader.seen writer.new.shown }
    {
        let Reader {
            place,
            status: _,
            answers: _,
        } = reader;
        let shared = &self.table.shared;
        shared.join_seat::<Merge>(&mut writer.place, place);
        shared.load::<Confirm>(&mut writer.place, VERSION);
    }
}
