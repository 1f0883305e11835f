//! The limits.
ghost use Rattle.std.specs.Prelude.{ℕ, ◌≡◌, ◌<◌, ◌≤◌, ◌+◌, ◌*◌, IfOk, IfSome, IfNone, MatchOption, length, replicate};
ghost use Rattle.request_limits.specs.Limits.{LimitsView, slots, HasCell, HasCells, cell_of, limit_of, sent_in, sent_of, is_below, passes, oldest_in, goes_at_once, all_held, IsFree, with_limit, with_one_more, with_one_fewer, with_youngest, without_oldest, IsRemoved, opened};
ghost use Rattle.request_limits.specs.Next.{may_go, NoneMayGo, IsNextToGo, IsFoundBelow};
ghost use Rattle.request_limits.specs.Kept.{held_of};

use crate::held::Held;
use std::alloc::{AllocError, Global};
use std::marker::Model;
use waiting_lists::{Item, Lists};

/// How many requests of each tenant and kind are forwarded and not ended, and which are held back. A tenant has a slot,
/// and each slot a cell for each kind. All memory is taken at opening, and each call takes constant time, but
/// `next_to_go` time for all kinds.
#[derive(Drop)]
pub struct RequestLimits {
    // by kind
    kind_limits: Vec<u32>,
    // by slot
    limits: Vec<u32>,
    // by cell
    sent: Vec<u32>,
    // by slot, the sum of its cells
    totals: Vec<u32>,
    // by cell: the number of an item is its place, its job the ticket
    held: Lists<u64>,
}

impl Model for RequestLimits {
    ghost use Rattle.request_limits.specs.Limits.{LimitsView};
    ghost use Rattle.request_limits.specs.Kept.{Keeps, view_of};

    ghost Value = { LimitsView };

    ghost view = { λ l. view_of l.kind_limits.items l.limits.items l.sent.items l.held };

    ghost invariant = { λ l. Keeps (view_of l.kind_limits.items l.limits.items l.sent.items l.held) l.totals.items };
}

impl RequestLimits {
    /// Nothing is forwarded or held. There are up to 65,536 slots, each with this limit, and up to 64 kinds with
    /// theirs, but at most 1,048,576 cells. A limit of 0 is none. At most `room` requests may be held. All memory is
    /// taken here.
    pub fn open(
        alloc: Global,
        slots: u32,
        kind_limits: Vec<u32>,
        limit: u32,
        room: u32,
    ) -> Result<RequestLimits, AllocError>
        requires slots_fit { slots ≤ 65536 }
        requires kinds_fit { length kind_limits.items ≤ 64 }
        requires cells_fit { slots * length kind_limits.items ≤ 1048576 }
        ensures { IfOk result (λ l. l ≡ opened slots kind_limits.items limit room) }
    {
        let cells = slots * kind_limits.len() as u32;
        let limits = filled(alloc, slots, limit)?;
        let sent = filled(alloc, cells, 0)?;
        let totals = filled(alloc, slots, 0)?;
        let held = Lists::open(alloc, cells, room)?;
        Ok(RequestLimits {
            kind_limits,
            limits,
            sent,
            totals,
            held,
        })
    }

    // The cell of a slot and kind.
    fn cell(&self, slot: u32, kind: u32) -> u32
        requires known { HasCell self.now slot kind }
        ensures value { result ≡ cell_of self.now slot kind }
        ensures sent { result < length self.now.sent }
        ensures held { result < length self.now.held }
    {
        slot * self.kind_limits.len() as u32 + kind
    }

    /// Whether one more request of this slot and kind keeps within the limits of both. The limit of a tenant counts its
    /// requests of all kinds.
    pub fn passes(&self, slot: u32, kind: u32) -> bool
        requires { HasCell self.now slot kind }
        ensures { result ≡ passes self.now slot kind }
    {
        let cell = self.cell(slot, kind);
        is_below(self.totals[slot as usize], self.limits[slot as usize])
            && is_below(self.sent[cell as usize], self.kind_limits[kind as usize])
    }

    /// Whether a request of this slot and kind that comes now is not held back: it passes, and none of this slot and
    /// kind is held.
    pub fn goes_at_once(&self, slot: u32, kind: u32) -> bool
        requires { HasCell self.now slot kind }
        ensures { result ≡ goes_at_once self.now slot kind }
    {
        self.passes(slot, kind) && self.oldest(slot, kind).is_none()
    }

    // The oldest held request of a slot and kind.
    fn oldest(&self, slot: u32, kind: u32) -> Option<Held>
        requires { HasCell self.now slot kind }
        ensures { result ≡ oldest_in self.now slot kind }
    {
        let cell = self.cell(slot, kind);
        let item = self.held.head(cell)?;
        Some(held_of(item))
    }

    /// The held request of a slot that goes next, with its kind: of the oldest of each kind, if it passes, the one of
    /// the least ticket, and of equal tickets that of the least kind. If the held ones of each slot and kind are in the
    /// order of their tickets, it is the oldest of all that pass.
    pub fn next_to_go(&self, slot: u32) -> Option<(u32, Held)>
        requires { slot < slots self.now }
        ensures { MatchOption result (NoneMayGo self.now slot) (λ n. IsNextToGo self.now slot n.0 n.1) }
    {
        let mut next = None;
        for kind in 0..self.kind_limits.len() as u32 {
            next = first_of(next, kind, self.may_go(slot, kind));
        }
        next
    }

    // The oldest held request of a slot and kind, if one more of these passes.
    fn may_go(&self, slot: u32, kind: u32) -> Option<Held>
        requires { HasCell self.now slot kind }
        ensures { result ≡ may_go self.now slot kind }
    {
        if self.passes(slot, kind) {
            self.oldest(slot, kind)
        } else {
            None
        }
    }

    /// One more request of this slot and kind is forwarded.
    pub fn forwarded(&mut self, slot: u32, kind: u32)
        requires known { HasCell self.old slot kind }
        requires few { sent_of self.old slot < 4294967295 }
        ensures { self.new ≡ with_one_more self.old slot kind }
    {
        let cell = self.cell(slot, kind);
        self.sent[cell as usize] += 1;
        self.totals[slot as usize] += 1;
    }

    /// A forwarded request of this slot and kind has ended, or was withdrawn.
    pub fn ended(&mut self, slot: u32, kind: u32)
        requires known { HasCell self.old slot kind }
        requires some { 0 < sent_in self.old slot kind }
        ensures { self.new ≡ with_one_fewer self.old slot kind }
    {
        let cell = self.cell(slot, kind);
        self.sent[cell as usize] -= 1;
        self.totals[slot as usize] -= 1;
    }

    /// A request is held, as the youngest of this slot and kind.
    pub fn hold(&mut self, slot: u32, kind: u32, held: Held)
        requires known { HasCell self.old slot kind }
        requires space { all_held self.old < self.old.room }
        requires free { IsFree self.old held.place }
        ensures { self.new ≡ with_youngest self.old slot kind held }
    {
        let cell = self.cell(slot, kind);
        let item = Item {
            request: held.place,
            kind: 0,
            declared: 0,
            job: held.ticket,
        };
        let Ok(()) = self.held.push(cell, item) else {
            unreachable!();
        };
    }

    /// Takes the oldest held request of this slot and kind out.
    pub fn release(&mut self, slot: u32, kind: u32) -> Option<Held>
        requires { HasCell self.old slot kind }
        ensures oldest { result ≡ oldest_in self.old slot kind }
        ensures rest { self.new ≡ without_oldest self.old slot kind }
    {
        let cell = self.cell(slot, kind);
        let item = self.held.pop(cell)?;
        Some(held_of(&item))
    }

    /// Takes the held request of this place out, of whichever slot and kind it is.
    pub fn remove(&mut self, place: u32) -> Option<Held>
        ensures removed { IfSome result (λ h. IsRemoved self.old place h self.new) }
        ensures none { IfNone result (IsFree self.old place) }
        ensures unchanged { IfNone result (self.new ≡ self.old) }
        ensures gone { IsFree self.new place }
    {
        let (_, item) = self.held.remove(place)?;
        Some(held_of(&item))
    }

    /// The limit of a slot is this from now on, and 0 is no limit. What is forwarded stays so.
    pub fn set_limit(&mut self, slot: u32, most: u32)
        requires { slot < slots self.old }
        ensures { self.new ≡ with_limit self.old slot most }
    {
        self.limits[slot as usize] = most;
    }

    /// The limit of a slot: 0 is no limit.
    pub fn limit_of(&self, slot: u32) -> u32
        requires { slot < slots self.now }
        ensures { result ≡ limit_of self.now slot }
    {
        self.limits[slot as usize]
    }

    /// How many slots there are. Each has a cell for each kind.
    pub fn slots(&self) -> u32
        ensures count { result ≡ slots self.now }
        ensures cells { HasCells self.now }
    {
        self.limits.len() as u32
    }

    /// How many requests of a slot and kind are forwarded and not ended.
    pub fn sent_in(&self, slot: u32, kind: u32) -> u32
        requires { HasCell self.now slot kind }
        ensures { result ≡ sent_in self.now slot kind }
    {
        let cell = self.cell(slot, kind);
        self.sent[cell as usize]
    }

    /// How many requests of a slot are forwarded and not ended, over all kinds.
    pub fn sent_of(&self, slot: u32) -> u32
        requires { slot < slots self.now }
        ensures { result ≡ sent_of self.now slot }
    {
        self.totals[slot as usize]
    }

    /// How many requests are held, over all slots and kinds.
    pub fn held(&self) -> u32
        ensures all { result ≡ all_held self.now }
        ensures within { result ≤ self.now.room }
    {
        self.held.len()
    }
}

// So many times this number.
fn filled(alloc: Global, count: u32, number: u32) -> Result<Vec<u32>, AllocError>
    ensures { IfOk result (λ v. v.items ≡ replicate count number) }
{
    vec![in alloc; number; count as usize]
}

// The first of what was found among lesser kinds, and of what may go of this one.
fn first_of(found: Option<(u32, Held)>, kind: u32, held: Option<Held>) -> Option<(u32, Held)>
    ensures { (v : LimitsView) (slot : ℕ) → IsFoundBelow v slot kind found → may_go v slot kind ≡ held
        → IsFoundBelow v slot (kind + 1) result }
{
    match (found, held) {
        (_, None) => found,
        (None, Some(held)) => Some((kind, held)),
        (Some((_, first)), Some(held)) => {
            if held.ticket < first.ticket {
                Some((kind, held))
            } else {
                found
            }
        }
    }
}

// The request that an item stands for.
fn held_of(item: &Item<u64>) -> Held
    ensures { result ≡ held_of item.now }
{
    Held {
        ticket: item.job,
        place: item.request,
    }
}

// Whether one more keeps within the limit.
fn is_below(count: u32, limit: u32) -> bool
    ensures { result ≡ is_below count limit }
{
    limit == 0 || count < limit
}
