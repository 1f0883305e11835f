//! The handle by which a program in C keeps a scheduler.
ghost use Rattle.std.specs.Prelude.{◌≡◌, Some, None, is_some, option_map};
ghost use Rattle.twodfq_c.specs.Answering.{AnswersHeld};
ghost use Rattle.twodfq_c.specs.Entries.{ReadsHeld};
ghost use Rattle.twodfq_c.specs.Finding.{FindsHeld};
ghost use Rattle.twodfq_c.specs.Statuses.{TellsHeld};

use crate::entry::PlainEntry;
use crate::reply::PlainReply;
use crate::slot::{Served, Slot};
use crate::status::{PlainStatus, status_of};
use fq_model::event::Call;
use sched_state::answer;
use std::alloc::Global;
use std::marker::Send;

/// A scheduler, or none. All zeros is none.
#[repr(C)]
#[derive(Drop)]
pub struct Handle {
    pub(crate) slot: Slot,
    pub(crate) is_open: bool,
    ghost says: { is_open ≡ is_some slot.held },
}

impl Handle {
    /// A handle of zeros.
    pub(crate) fn empty() -> Handle
        ensures { result.slot.held ≡ None }
    {
        Handle {
            slot: Slot::empty(),
            is_open: false,
        }
    }

    /// A handle that holds this scheduler.
    pub(crate) fn holding(served: Box<Served>) -> Handle
        ensures { result.slot.held ≡ Some served.value }
    {
        Handle {
            slot: Slot::of(served),
            is_open: true,
        }
    }

    /// Takes the scheduler out, if it holds one.
    pub(crate) fn take(&mut self, alloc: Global) -> Option<Box<Served>>
        ensures taken { option_map (λ served. served.value) result ≡ self.old.slot.held }
        ensures left { self.new.slot.held ≡ None }
    {
        let Handle { slot, is_open } = std::mem::replace(self, Handle::empty());
        if is_open {
            Some(slot.into_box(alloc))
        } else {
            None
        }
    }

    /// Makes the call on the scheduler.
    pub(crate) fn call(&mut self, alloc: Global, call: Call) -> PlainReply
        ensures { AnswersHeld self.old.slot.held call result self.new.slot.held }
    {
        let Some(mut served) = self.take(alloc) else {
            return PlainReply::no_scheduler();
        };
        let reply = answer(&mut served, call);
        *self = Handle::holding(served);
        PlainReply::of(reply)
    }

    /// Foresees a take by the worker at this moment.
    pub(crate) fn foresee(
        &mut self,
        alloc: Global,
        moment: u64,
        worker: u32,
        below: u64,
    ) -> PlainReply
        ensures foreseen { FindsHeld self.old.slot.held moment worker below result }
        ensures unchanged { self.new.slot.held ≡ self.old.slot.held }
    {
        let Some(held) = self.take(alloc) else {
            return PlainReply::no_scheduler();
        };
        let foreseen = held.foresee(moment, worker, below);
        *self = Handle::holding(held);
        PlainReply::of_foreseen(foreseen)
    }

    /// Reads the entry with this index, if it is kept.
    pub(crate) fn entry(&mut self, alloc: Global, index: u64) -> PlainEntry
        ensures entry { ReadsHeld self.old.slot.held index result }
        ensures unchanged { self.new.slot.held ≡ self.old.slot.held }
    {
        let Some(held) = self.take(alloc) else {
            return PlainEntry::missing(0);
        };
        let entry = entry_of(&held, index);
        *self = Handle::holding(held);
        entry
    }

    /// Gives the status of the scheduler.
    pub(crate) fn status(&mut self, alloc: Global) -> PlainStatus
        ensures status { TellsHeld self.old.slot.held result }
        ensures unchanged { self.new.slot.held ≡ self.old.slot.held }
    {
        let Some(held) = self.take(alloc) else {
            return PlainStatus::missing();
        };
        let status = status_of(&held);
        *self = Handle::holding(held);
        status
    }
}

// The entry of this scheduler with this index, if it is kept.
fn entry_of(served: &Served, index: u64) -> PlainEntry
    ensures { ReadsHeld (Some served.now) index result }
{
    match served.entry(index) {
        Some(entry) => PlainEntry::of(entry),
        None => PlainEntry::missing(served.first_kept() as u64),
    }
}

fn may_be_sent<T: Send>() {}

/// A handle may be sent to another thread.
pub fn handle_crosses_threads() {
    may_be_sent::<Handle>();
}
