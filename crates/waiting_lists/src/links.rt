//! Slots, and how they are linked to lists.
ghost use Rattle.std.specs.Prelude.{◌≡◌, ◌<◌, ◌≤◌, [], length, None, Some, OnOk, OnErr, IfErr, IfOk, IfSome, IsSome, MatchOption, slice_get, slice_index_or, vec_capacity};
ghost use Rattle.waiting_lists.specs.Linked.{lists_of, count_of, empty_slot, slot_at, Keeps, IsMadeFree, IsAppended, IsTakenOut, IsPutAt, IsEmptied, Leads, LeadsBack, AreEndsWithout};

use crate::item::Item;
use std::mem;

/// A place for an item of a tenant. Its links lead to the slots before and after it in the tenant's list, and to the
/// next of its cell in the index.
#[derive(Drop)]
pub struct Slot<J> {
    pub item: Option<Item<J>>,
    pub tenant: u32,
    pub before: Option<u32>,
    pub next: Option<u32>,
    pub next_in_cell: Option<u32>,
}

impl<J> Slot<J> {
    // A slot that has no item, and leads to this slot.
    fn empty(next: Option<u32>) -> Slot<J>
        ensures { result ≡ record empty_slot { next = next } }
    {
        Slot {
            item: None,
            tenant: 0,
            before: None,
            next,
            next_in_cell: None,
        }
    }
}

/// The first and the last slot of a list that has an item.
#[derive(Clone, Copy)]
pub struct Ends {
    pub first: u32,
    pub last: u32,
}

/// Where no slot is free and there may be one more, adds an empty one, which is then the free one.
pub fn make_free<J: Drop>(slots: &mut Vec<Slot<J>>, free: &mut Option<u32>, room: u32)
    requires within { length slots.old.items ≤ room }
    requires reserved { room ≤ vec_capacity slots.old }
    ensures made { IsMadeFree slots.old.items free.old room slots.new.items free.new }
    ensures capacity { vec_capacity slots.new ≡ vec_capacity slots.old }
{
    let count = slots.len() as u32;
    if free.is_none() && count < room {
        slots.push_reserved(Slot::empty(None));
        *free = Some(count);
    }
}

/// Puts an item into the first free slot, and that slot at the end of a tenant's list. Tells the slot. Where none is
/// free the item comes back.
pub fn append<J: Drop>(
    slots: &mut [Slot<J>],
    ends: &mut [Option<Ends>],
    free: &mut Option<u32>,
    tenant: u32,
    item: Item<J>,
) -> Result<u32, Item<J>>
    requires known { tenant < length ends.old }
    requires kept { Keeps slots.old ends.old free.old }
    ensures keeps { Keeps slots.new ends.new free.new }
    ensures room { OnOk result (count_of (lists_of slots.old ends.old) < length slots.old) }
    ensures appended { OnOk result (IsAppended slots.old ends.old tenant item slots.new ends.new) }
    ensures held { IfOk result (λ slot. IsPutAt slots.old slot item slots.new) }
    ensures full { OnErr result (count_of (lists_of slots.old ends.old) ≡ length slots.old) }
    ensures back { IfErr result (λ i. i ≡ item) }
    ensures unchanged { OnErr result ((slots.new ≡ slots.old) × (ends.new ≡ ends.old)) }
{
    let Some(slot) = *free else {
        return Err(item);
    };
    let now = ends[tenant as usize];
    let before = now.map(|ends| ends.last);
    *free = slots[slot as usize].next;
    slots[slot as usize] = Slot {
        item: Some(item),
        tenant,
        before,
        next: None,
        next_in_cell: None,
    };
    lead(slots, before, Some(slot));
    ends[tenant as usize] = Some(Ends {
        first: now.map_or(slot, |ends| ends.first),
        last: slot,
    });
    Ok(slot)
}

/// Leads the link of a slot, if there is one, to the slot that comes next.
fn lead<J: Drop>(slots: &mut [Slot<J>], slot: Option<u32>, next: Option<u32>)
    requires { IfSome slot (λ s. s < length slots.old) }
    ensures { Leads slots.old slot next slots.new }
{
    if let Some(slot) = slot {
        slots[slot as usize].next = next;
    }
}

/// Leads the link of a slot, if there is one, back to the slot that comes before.
fn lead_back<J: Drop>(slots: &mut [Slot<J>], slot: Option<u32>, before: Option<u32>)
    requires { IfSome slot (λ s. s < length slots.old) }
    ensures { LeadsBack slots.old slot before slots.new }
{
    if let Some(slot) = slot {
        slots[slot as usize].before = before;
    }
}

/// Takes the item out of a slot, wherever the slot is in a list, and makes the slot the first of the free slots.
pub fn unlink<J: Drop>(
    slots: &mut [Slot<J>],
    ends: &mut [Option<Ends>],
    free: &mut Option<u32>,
    slot: u32,
) -> Option<Item<J>>
    requires kept { Keeps slots.old ends.old free.old }
    requires held { IsSome (slot_at slots.old slot).item }
    ensures keeps { Keeps slots.new ends.new free.new }
    ensures item { result ≡ (slot_at slots.old slot).item }
    ensures rest { IsTakenOut slots.old ends.old slot slots.new ends.new }
    ensures emptied { IsEmptied slots.old slot slots.new }
{
    let Slot {
        item,
        tenant,
        before,
        next,
        ..
    } = mem::replace(&mut slots[slot as usize], Slot::empty(*free));
    *free = Some(slot);
    lead(slots, before, next);
    lead_back(slots, next, before);
    ends[tenant as usize] = ends_without(ends[tenant as usize], before, next);
    item
}

/// The ends of a list once a slot with these neighbours is out of it.
fn ends_without(ends: Option<Ends>, before: Option<u32>, next: Option<u32>) -> Option<Ends>
    ensures { AreEndsWithout ends before next result }
{
    let Ends { first, last } = ends?;
    Some(Ends {
        first: if before.is_none() { next? } else { first },
        last: if next.is_none() { before? } else { last },
    })
}
