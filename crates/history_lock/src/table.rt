//! The table that all passes share. Word 0 is the next turn to draw, word 1 the turn that is served, and slot 0 has the
//! machine.
use crate::machine::Machine;
use atomic_table::{Seat, Table, TableRule};
use fq_model::event::Entry;
use std::alloc::Global;
use std::collections::LinkedList;
use std::marker::PhantomData;
use std::snapshot::Snapshot;

/// Where a pass is in its turn. The numbers are turns, counted from 0 and never back, and the list is the past that the
/// machine had when the turn began.
pub enum Stage {
    Spent,
    Idle,
    Waits(u64),
    Served(u64, LinkedList<Entry>),
}

/// The view of a pass. No value of it is ever made: proofs alone use it.
pub struct View<F> {
    pub number: u64,
    pub frame: Option<F>,
    pub seen: LinkedList<Entry>,
    pub mine: LinkedList<Entry>,
    pub stage: Stage,
    pub made: u64,
    /// The history that this pass had seen before its last join.
    pub seen_before: LinkedList<Entry>,
    /// The history that the joined pass had seen then.
    pub seen_by_other: LinkedList<Entry>,
    pub ended: LinkedList<(u64, LinkedList<Entry>)>,
}

/// The invariant of the words, the slot and the views.
pub struct LockRule<M> {
    machine: PhantomData<M>,
}

impl<M: Machine> TableRule<Option<M>, View<M::Frame>, Snapshot<M>> for LockRule<M> {
    ghost use Rattle.history_lock.specs.Rule.{Kept};
    ghost use Rattle.history_lock.specs.Views.{newcomer};

    ghost holds = { λ key s. Kept M.past M.frame (M.frame key.value) s };

    ghost first = { λ key. newcomer (M.frame key.value) };
}

pub type LockTable<M: Machine> = Table<Option<M>, View<M::Frame>, Snapshot<M>, LockRule<M>, Global>;

/// A place at the table, while a call is under way.
pub type Place<M: Machine> = Seat<Option<M>, View<M::Frame>>;
