//! The room.
ghost use Rattle.std.specs.Prelude.{◌≡◌, ◌<◌, ◌≤◌, ◌*◌, IfOk, MatchResult, Some, None, length};
ghost use Rattle.waiting_room.specs.Room.{all_waiting, entered, has_place_beside, left, own_part, own_places, refusal, shared_free, waiting_of, with_waiting};
ghost use Rattle.waiting_room.specs.Kept.{IsWithin};
ghost use Rattle.waiting_room.specs.Runs.{opened};

use crate::refusal::Refusal;
use std::alloc::{AllocError, Global};
use std::marker::Model;

/// How many requests wait in each slot, and in all. Each call takes constant time. Contracts see the places, the limit
/// for each tenant and the counts by slot.
#[derive(Drop)]
pub struct Room {
    places: u32,
    per_tenant: u32,
    own: u32,
    shared: u32,
    waiting: Vec<u32>,
    all: u32,
    shared_taken: u32,
}

impl Model for Room {
    ghost use Rattle.waiting_room.specs.Room.{RoomView};
    ghost use Rattle.waiting_room.specs.Kept.{Keeps};

    ghost Value = { RoomView };

    ghost view = { λ r. record { places = r.places; per_tenant = r.per_tenant; waiting = r.waiting.items } };

    ghost invariant = { λ r. Keeps (record { places = r.places; per_tenant = r.per_tenant; waiting = r.waiting.items })
        r.own r.shared r.all r.shared_taken };
}

impl Room {
    /// An empty room of this many places for 1 to 65,536 slots, and at most `per_tenant` of them for one tenant: 0 is no
    /// such limit. All memory is taken here.
    pub fn open(alloc: Global, places: u32, slots: u32, per_tenant: u32) -> Result<Room, AllocError>
        requires at_least_one { 1 ≤ slots }
        requires in_range { slots ≤ 65536 }
        ensures { IfOk result (λ r. r ≡ opened places slots per_tenant) }
    {
        let waiting = vec![in alloc; 0; slots as usize]?;
        let own = own_part(places, slots);
        Ok(Room {
            places,
            per_tenant,
            own,
            shared: places - slots * own,
            waiting,
            all: 0,
            shared_taken: 0,
        })
    }

    /// Whether one request more of this slot may wait. One with fewer waiting than its own places always may, where
    /// there is no limit for each tenant.
    pub fn may_enter(&self, slot: u32) -> Result<(), Refusal>
        requires { slot < length self.now.waiting }
        ensures { MatchResult result (λ _. refusal self.now slot ≡ None) (λ e. refusal self.now slot ≡ Some e) }
    {
        if self.all >= self.places {
            return Err(Refusal::TooManyWait);
        }
        if !self.has_place(self.waiting[slot as usize]) {
            return Err(Refusal::TenantFull);
        }
        Ok(())
    }

    // Whether a tenant of whose requests this many wait has a place for one more.
    fn has_place(&self, waiting: u32) -> bool
        ensures { result ≡ has_place_beside self.now waiting }
    {
        if self.per_tenant > 0 {
            waiting < self.per_tenant
        } else if waiting < self.own {
            true
        } else {
            waiting - self.own < self.shared.saturating_sub(self.shared_taken)
        }
    }

    /// A request of this slot waits from now on.
    pub fn enter(&mut self, slot: u32)
        requires known { slot < length self.old.waiting }
        requires admitted { refusal self.old slot ≡ None }
        ensures { self.new ≡ entered self.old slot }
    {
        let waiting = self.waiting[slot as usize];
        self.set_waiting(slot, waiting + 1);
    }

    /// A request of this slot waits no more: it runs, or it is withdrawn.
    pub fn leave(&mut self, slot: u32)
        requires known { slot < length self.old.waiting }
        requires some { 0 < waiting_of self.old slot }
        ensures { self.new ≡ left self.old slot }
    {
        let waiting = self.waiting[slot as usize];
        self.set_waiting(slot, waiting - 1);
    }

    // This many requests of a slot wait from now on.
    fn set_waiting(&mut self, slot: u32, count: u32)
        requires known { slot < length self.old.waiting }
        requires within { IsWithin (with_waiting self.old slot count) }
        ensures { self.new ≡ with_waiting self.old slot count }
    {
        let before = self.waiting[slot as usize];
        self.all = self.all - before + count;
        self.shared_taken = self.shared_taken - before.saturating_sub(self.own)
            + count.saturating_sub(self.own);
        self.waiting[slot as usize] = count;
    }

    /// How many requests of this slot wait.
    pub fn waiting_of(&self, slot: u32) -> u32
        requires { slot < length self.now.waiting }
        ensures { result ≡ waiting_of self.now slot }
    {
        self.waiting[slot as usize]
    }

    /// How many requests wait in all.
    pub fn waiting(&self) -> u32
        ensures all { result ≡ all_waiting self.now }
        ensures within { result ≤ self.now.places }
    {
        self.all
    }

    /// The places of each tenant's own.
    pub fn own_places(&self) -> u32
        ensures { result ≡ own_places self.now }
    {
        self.own
    }

    /// The shared places that nobody has.
    pub fn shared_free(&self) -> u32
        ensures { result ≡ shared_free self.now }
    {
        self.shared.saturating_sub(self.shared_taken)
    }
}

// The places of each tenant's own.
fn own_part(places: u32, slots: u32) -> u32
    requires at_least_one { 1 ≤ slots }
    requires in_range { slots ≤ 65536 }
    ensures part { result ≡ own_part places slots }
    ensures few { slots * result ≤ places }
{
    if slots == 1 {
        places
    } else {
        places / (2 * slots)
    }
}
