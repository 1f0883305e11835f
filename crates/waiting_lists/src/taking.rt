//! A slot that gives its item up.
ghost use Rattle.std.specs.Prelude.{◌≡◌, ◌<◌, IsSome};
ghost use Rattle.waiting_lists.specs.Linked.{slot_at, IsTakenOut};
ghost use Rattle.waiting_lists.specs.Kept.{Kept};

use crate::cells::{number_of, unfile};
use crate::item::Item;
use crate::links::{Ends, Slot, unlink};

/// Takes the item out of a slot, wherever the slot is in a list.
pub fn take_out<J: Drop>(
    slots: &mut [Slot<J>],
    cells: &mut [Option<u32>],
    ends: &mut [Option<Ends>],
    free: &mut Option<u32>,
    slot: u32,
) -> Option<Item<J>>
    requires kept { Kept slots.old cells.old ends.old free.old }
    requires held { IsSome (slot_at slots.old slot).item }
    ensures keeps { Kept slots.new cells.new ends.new free.new }
    ensures item { result ≡ (slot_at slots.old slot).item }
    ensures rest { IsTakenOut slots.old ends.old slot slots.new ends.new }
{
    let request = number_of(&slots[slot as usize])?;
    unfile(slots, cells, slot, request);
    unlink(slots, ends, free, slot)
}
