//! The index: slots by the numbers of the requests in them. A number belongs to the cell of its remainder by the
//! number of cells, and the slots of a cell are linked. There are as many cells as slots, and numbers come in order, so
//! few share a cell.
ghost use Rattle.std.specs.Prelude.{◌≡◌, ◌≢◌, ◌<◌, ℕ, length, None, Some, IfNone, IfSome, option_map, slice_index_or};
ghost use Rattle.waiting_lists.specs.Cells.{number_at, without, SameLists, KeepsIndex, IsChainFrom, IsBeforeIn, NoneLeadsTo, LeadsInCell};

use crate::links::Slot;

/// Enters a slot that holds this request.
pub fn file<J: Drop>(slots: &mut [Slot<J>], cells: &mut [Option<u32>], slot: u32, request: u32)
    requires some { 0 < length cells.old }
    requires held { number_at slots.old slot ≡ Some request }
    requires kept { KeepsIndex (without slot (number_at slots.old)) cells.old slots.old }
    ensures keeps { KeepsIndex (number_at slots.new) cells.new slots.new }
    ensures lists { SameLists slots.old slots.new }
{
    let cell = request as usize % cells.len();
    lead_in_cell(slots, slot, cells[cell]);
    cells[cell] = Some(slot);
}

/// Strikes a slot that holds this request.
pub fn unfile<J: Drop>(slots: &mut [Slot<J>], cells: &mut [Option<u32>], slot: u32, request: u32)
    requires some { 0 < length cells.old }
    requires held { number_at slots.old slot ≡ Some request }
    requires kept { KeepsIndex (number_at slots.old) cells.old slots.old }
    ensures keeps { KeepsIndex (without slot (number_at slots.new)) cells.new slots.new }
    ensures lists { SameLists slots.old slots.new }
{
    let cell = request as usize % cells.len();
    let next = slots[slot as usize].next_in_cell;
    match before_in_cell(slots, cells[cell], slot) {
        Some(before) => lead_in_cell(slots, before, next),
        None => cells[cell] = next,
    }
}

/// Leads the link of a slot in its cell to the slot that comes next.
fn lead_in_cell<J: Drop>(slots: &mut [Slot<J>], slot: u32, next: Option<u32>)
    requires { slot < length slots.old }
    ensures { LeadsInCell slots.old slot next slots.new }
{
    slots[slot as usize].next_in_cell = next;
}

/// The slot of a cell whose link leads to this one.
fn before_in_cell<J: Drop>(slots: &[Slot<J>], first: Option<u32>, slot: u32) -> Option<u32>
    requires { IsChainFrom slots.now first }
    ensures before { IfSome result (λ i. IsBeforeIn slots.now first i slot) }
    ensures none { IfNone result (NoneLeadsTo slots.now first slot) }
{
    let mut at = first;
    while let Some(here) = at {
        let next = slots[here as usize].next_in_cell;
        if next == Some(slot) {
            return Some(here);
        }
        at = next;
    }
    None
}

/// A slot that holds this request.
pub fn find<J: Drop>(slots: &[Slot<J>], cells: &[Option<u32>], request: u32) -> Option<u32>
    requires some { 0 < length cells.now }
    requires kept { KeepsIndex (number_at slots.now) cells.now slots.now }
    ensures found { IfSome result (λ i. number_at slots.now i ≡ Some request) }
    ensures none { IfNone result ((i : ℕ) → number_at slots.now i ≢ Some request) }
{
    let mut at = cells[request as usize % cells.len()];
    while let Some(here) = at {
        if number_of(&slots[here as usize]) == Some(request) {
            return Some(here);
        }
        at = slots[here as usize].next_in_cell;
    }
    None
}

/// The number of the request in a slot.
pub fn number_of<J: Drop>(slot: &Slot<J>) -> Option<u32>
    ensures { result ≡ option_map (λ i. i.request) slot.now.item }
{
    let item = slot.item.as_ref()?;
    Some(item.request)
}
