//! The table that the writer and all readers share. Word 0 is the version: twice the number of entries that are shown,
//! and 1 more while the words of the next history are written. The other words have the other numbers of a status.
use atomic_table::{Seat, Table, TableRule};
use fq_model::config::Checked;
use fq_model::event::Entry;
use std::alloc::Global;
use std::collections::LinkedList;
use std::snapshot::Snapshot;

pub(crate) const VERSION: usize = 0;

pub(crate) const MOMENT: usize = 1;

// The halves of virtual time.
pub(crate) const LOW: usize = 2;

pub(crate) const HIGH: usize = 3;

pub(crate) const WAITING: usize = 4;

pub(crate) const RUNNING: usize = 5;

/// Where a reader is in its look, or the writer in its writing.
pub enum Stage {
    Spent,
    Idle,
    Reading,
    Rests,
    Writes,
}

/// The view of a reader or the writer. No value of it is ever made: proofs alone use it.
pub struct View {
    pub config: Option<Checked>,
    /// For the writer this is the history that it has shown.
    pub seen: LinkedList<Entry>,
    /// For the writer: the history that the reader joined last had seen.
    pub joined: LinkedList<Entry>,
    pub stage: Stage,
    /// The history whose version a look found.
    pub noted: LinkedList<Entry>,
    /// The version at the last step of a look.
    pub version: u64,
    /// The words, while the writer writes them.
    pub words: LinkedList<u64>,
}

/// The invariant of the words and the views.
pub struct BoardRule;

impl TableRule<(), View, Snapshot<Checked>> for BoardRule {
    ghost use Rattle.status_board.specs.Rule.{Kept};
    ghost use Rattle.status_board.specs.Views.{first_writer};

    ghost holds = { λ key s. Kept key.value s };

    ghost first = { λ key. first_writer key.value };
}

pub type BoardTable = Table<(), View, Snapshot<Checked>, BoardRule, Global>;

pub type Place = Seat<(), View>;
