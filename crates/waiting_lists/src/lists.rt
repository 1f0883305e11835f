//! The lists.
ghost use Rattle.std.specs.Prelude.{◌≡◌, ◌<◌, ◌≤◌, ◌++◌, [], ◌∷◌, drop, max, IfOk, IfSome, IfNone, None, OnOk, OnErr, IfErr, length, replicate, slice_get, option_copied};
ghost use Rattle.waiting_lists.specs.Lists.{ListsView, list_of, waiting, with_list, HasItemOf, HasNone, IsRemoved};

use crate::cells::{file, find};
use crate::item::Item;
use crate::links::{Ends, Slot, append, make_free};
use crate::taking::take_out;
use std::alloc::{AllocError, Global};
use std::marker::Model;

/// One list of waiting items a tenant, in the order in which they came. All share a fixed number of slots. Memory for
/// them is set aside at opening, and used only for as many as ever had items at once. The index, by which an item is
/// found by the number of its request, has a cell a slot, written at opening.
#[derive(Drop)]
pub struct Lists<J> {
    // the slots that were needed so far, with memory for all
    slots: Vec<Slot<J>>,
    // how many slots there may be
    room: u32,
    // the first slot of each cell of the index
    cells: Vec<Option<u32>>,
    // the ends of each tenant's list that has an item
    ends: Vec<Option<Ends>>,
    // the first of the slots that hold no item, linked among themselves
    free: Option<u32>,
    len: u32,
}

impl<J> Model for Lists<J> {
    ghost use Rattle.std.specs.Prelude.{vec_capacity};
    ghost use Rattle.waiting_lists.specs.Lists.{ListsView, lists_code};

    ghost Value = { ListsView J };

    ghost coded = { lists_code J.code };

    ghost use Rattle.waiting_lists.specs.Linked.{lists_of};
    ghost use Rattle.waiting_lists.specs.Kept.{KeepsCount};

    ghost view = { λ l. record { lists = lists_of l.slots.items l.ends.items; slots = l.room } };

    ghost invariant = { λ l. KeepsCount l.slots.items l.cells.items l.ends.items l.free l.len l.room
        (vec_capacity l.slots) };
}

impl<J: Drop> Lists<J> {
    /// Empty lists, one a tenant, with room for `slots` items in all.
    pub fn open(alloc: Global, tenants: u32, slots: u32) -> Result<Lists<J>, AllocError>
        ensures { IfOk result (λ l. l ≡ record { lists = replicate tenants []; slots = slots }) }
    {
        let cells = empty_cells(alloc, slots)?;
        let ends = empty_ends(alloc, tenants)?;
        Ok(Lists {
            slots: Vec::with_capacity(alloc, slots as usize)?,
            room: slots,
            cells,
            ends,
            free: None,
            len: 0,
        })
    }

    /// Appends an item to a tenant's list. Where every slot has an item the item comes back.
    pub fn push(&mut self, tenant: u32, item: Item<J>) -> Result<(), Item<J>>
        requires { tenant < length self.old.lists }
        ensures room { OnOk result (waiting self.old < self.old.slots) }
        ensures pushed { OnOk result (self.new ≡ with_list self.old tenant (list_of self.old tenant ++ item ∷ [])) }
        ensures full { OnErr result (waiting self.old ≡ self.old.slots) }
        ensures back { IfErr result (λ i. i ≡ item) }
        ensures unchanged { OnErr result (self.new ≡ self.old) }
    {
        make_free(&mut self.slots, &mut self.free, self.room);
        let request = item.request;
        let slot = append(
            &mut self.slots,
            &mut self.ends,
            &mut self.free,
            tenant,
            item,
        )?;
        file(&mut self.slots, &mut self.cells, slot, request);
        self.len += 1;
        Ok(())
    }

    /// The first item of a tenant's list.
    pub fn head(&self, tenant: u32) -> Option<&Item<J>>
        requires { tenant < length self.now.lists }
        ensures { option_copied result ≡ slice_get (list_of self.now tenant) 0 }
    {
        let ends = self.ends[tenant as usize]?;
        self.slots[ends.first as usize].item.as_ref()
    }

    /// Takes the first item of a tenant's list.
    pub fn pop(&mut self, tenant: u32) -> Option<Item<J>>
        requires { tenant < length self.old.lists }
        ensures first { result ≡ slice_get (list_of self.old tenant) 0 }
        ensures rest { self.new ≡ with_list self.old tenant (drop 1 (list_of self.old tenant)) }
    {
        let Ends { first, .. } = self.ends[tenant as usize]?;
        let item = take_out(
            &mut self.slots,
            &mut self.cells,
            &mut self.ends,
            &mut self.free,
            first,
        );
        self.len -= 1;
        item
    }

    /// The tenant in whose list an item of this request is.
    pub fn find(&self, request: u32) -> Option<u32>
        ensures some { IfSome result (HasItemOf self.now request) }
        ensures none { IfNone result (HasNone self.now request) }
    {
        let slot = find(&self.slots, &self.cells, request)?;
        Some(self.slots[slot as usize].tenant)
    }

    /// Takes an item of this request out of its list. Gives the list's tenant and the item.
    pub fn remove(&mut self, request: u32) -> Option<(u32, Item<J>)>
        ensures removed { IfSome result (λ r. IsRemoved self.old request r.0 r.1 self.new) }
        ensures none { IfNone result (HasNone self.old request) }
        ensures unchanged { IfNone result (self.new ≡ self.old) }
    {
        let slot = find(&self.slots, &self.cells, request)?;
        let tenant = self.slots[slot as usize].tenant;
        let item = take_out(
            &mut self.slots,
            &mut self.cells,
            &mut self.ends,
            &mut self.free,
            slot,
        )?;
        self.len -= 1;
        Some((tenant, item))
    }

    /// How many items wait, over all tenants.
    pub fn len(&self) -> u32
        ensures all { result ≡ waiting self.now }
        ensures within { result ≤ self.now.slots }
    {
        self.len
    }
}

/// The ends of lists that have no item, one a tenant.
fn empty_ends(alloc: Global, tenants: u32) -> Result<Vec<Option<Ends>>, AllocError>
    ensures { IfOk result (λ v. v.items ≡ replicate tenants None) }
{
    vec![in alloc; None; tenants as usize]
}

/// The cells of an index of `slots` slots, of which none holds an item; one cell at the least.
fn empty_cells(alloc: Global, slots: u32) -> Result<Vec<Option<u32>>, AllocError>
    ensures { IfOk result (λ v. v.items ≡ replicate (max slots 1) None) }
{
    vec![in alloc; None; slots.max(1) as usize]
}
