//! The steps of one turn: to draw it, to wait until it is served, and to end it.
ghost use Rattle.std.specs.Prelude.{◌≡◌, [], Some};
ghost use Rattle.fq_model.specs.Outcome.{own_entries};
ghost use Rattle.history_lock.specs.declared.table.Stage.TheVariants.{Idle};
ghost use Rattle.history_lock.specs.Histories.{IsPrefix};
ghost use Rattle.history_lock.specs.Passes.{IsPlaceAt};
ghost use Rattle.history_lock.specs.Plays.{HasDrawn, IsServed, MayLeave};
ghost use Rattle.history_lock.specs.Rule.{word_count};
ghost use Rattle.history_lock.specs.Views.{learned};

use crate::machine::Machine;
use crate::plays::{Draw, Give, Look};
use crate::table::{LockTable, Place};
use std::hint::spin_loop;
use std::sync::Wait;
use std::thread::yield_now;

// The words and the slot of the table.
const NEXT: usize = 0;

const SERVED: usize = 1;

const MACHINE: usize = 0;

// How many turns of others a caller lets pass while there is a line, before it joins the line.
const PATIENCE: u64 = 4000;

// How often the next in line looks before it lets others run.
const LOOKS: u32 = 100;

// Lets others run while there are turns that were drawn and have not ended, until it has been overtaken often enough.
// A line moves in order, so each thread in it has to run before it moves on; who stays out of it costs nobody a wait.
fn stand_aside<M: Machine, R: Wait>(table: &LockTable<M>, rt: &R)
    requires own { table.now.shared.table_id.words ≡ word_count }
{
    let at_first = table.shared.peek(SERVED);
    for _ in rt.forever() {
        let served = table.shared.peek(SERVED);
        if table.shared.peek(NEXT) == served || served.wrapping_sub(at_first) >= PATIENCE {
            return;
        }
        yield_now();
    }
}

// Draws a turn.
fn draw<M: Machine>(table: &LockTable<M>, place: &mut Place<M>) -> u64
    requires own { IsPlaceAt place.old.table_id table.now.shared.table_id }
    requires idle { place.old.me.0.stage ≡ Idle }
    ensures same { (place.new.table_id ≡ place.old.table_id) × (place.new.id ≡ place.old.id) }
    ensures waits { HasDrawn place.old.me result place.new.me }
{
    table.shared.fetch_add::<Draw>(place, NEXT, 1)
}

// Looks for a turn some more, and says whether it came.
fn comes_soon<M: Machine>(table: &LockTable<M>, turn: u64) -> bool
    requires own { table.now.shared.table_id.words ≡ word_count }
{
    for _ in 0..LOOKS {
        if table.shared.peek(SERVED) == turn {
            return true;
        }
        spin_loop();
    }
    false
}

// Lets time pass after a look that found another turn served. The next in line looks some more first.
fn pause<M: Machine>(table: &LockTable<M>, turn: u64, served: u64)
    requires own { table.now.shared.table_id.words ≡ word_count }
{
    if turn.wrapping_sub(served) == 1 && comes_soon(table, turn) {
        return;
    }
    yield_now();
}

/// Waits for a turn of its own, and takes the machine out of its slot.
pub(crate) fn enter<M: Machine, R: Wait>(table: &LockTable<M>, rt: &R, place: &mut Place<M>) -> M
    requires own { IsPlaceAt place.old.table_id table.now.shared.table_id }
    requires idle { (place.old.me.0.stage ≡ Idle) × (place.old.me.1 ≡ []) }
    ensures same { (place.new.table_id ≡ place.old.table_id) × (place.new.id ≡ place.old.id) }
    ensures served { IsServed place.old.me (M.past result) place.new.me }
    ensures frame { place.old.me.0.frame ≡ Some (M.frame result) }
    ensures seen { IsPrefix place.old.me.0.seen (M.past result) }
    ensures mine { own_entries (M.past result) place.old.me.0.number ≡ place.old.me.0.mine }
{
    stand_aside(table, rt);
    let turn = draw(table, place);
    for _ in rt.forever() {
        let served = table.shared.load::<Look>(place, SERVED);
        if served == turn {
            return table.shared.exchange(place, MACHINE, None).unwrap();
        }
        pause(table, turn, served);
    }
    unreachable!()
}

/// Puts the machine back after its step, and ends the turn.
pub(crate) fn leave<M: Machine>(table: &LockTable<M>, place: &mut Place<M>, machine: M)
    requires own { IsPlaceAt place.old.table_id table.now.shared.table_id }
    requires served { MayLeave place.old.me (M.past machine) }
    requires frame { place.old.me.0.frame ≡ Some (M.frame machine) }
    ensures same { (place.new.table_id ≡ place.old.table_id) × (place.new.id ≡ place.old.id) }
    ensures learned { place.new.me ≡ (learned place.old.me.0 (M.past machine), []) }
{
    let empty = table.shared.exchange(place, MACHINE, Some(machine));
    let None = empty else { unreachable!() };
    table.shared.fetch_add::<Give>(place, SERVED, 1);
}
