//! The lock.
ghost use Rattle.std.specs.Prelude.{◌≡◌, ◌≢◌, ℕ, ◌+◌, ◌<◌, ◌++◌, List, [], ◌∷◌, Some, IfOk, IfErr, IsOk};
ghost use Rattle.fq_model.specs.declared.event.Entry.{Entry};
ghost use Rattle.fq_model.specs.Outcome.{own_entries};
ghost use Rattle.history_lock.specs.Histories.{IsPrefix, Gains, longer};
ghost use Rattle.history_lock.specs.Passes.{IsOf, SeesMore, HasEnded, HasNoneAbove, AllEnded};
ghost use Rattle.history_lock.specs.Last.{WasLast};

use crate::machine::{Inspect, Machine};
use crate::pass::Pass;
use crate::plays::{Fork, Merge, Note};
use crate::steps::{enter, leave};
use crate::table::{LockTable, Place};
use atomic_table::{Badge, Table};
use std::alloc::{AllocError, Global};
use std::marker::Model;
use std::mem;
use std::snapshot::Snapshot;
use std::sync::Wait;

/// Turns were drawn that were not served, since a pass that waits or is served was not joined. Both counts are
/// modulo 2^64.
#[derive(Clone, Copy, Debug, PartialEq, Eq, thiserror::Error)]
#[error("{drawn} turns were drawn, and {served} served")]
pub struct Unsettled {
    pub drawn: u64,
    pub served: u64,
}

/// A machine that threads share, one at a time, each in the order in which it drew its turn.
pub struct HistoryLock<M: Machine> {
    table: LockTable<M>,
}

impl<M: Machine> Model for HistoryLock<M> {
    ghost use Rattle.std.specs.Prelude.{◌≡◌};
    ghost use Rattle.history_lock.specs.Passes.{LockView};
    ghost use Rattle.history_lock.specs.Rule.{word_count};

    ghost Value = { LockView M.Frame };

    ghost view = { λ l. record { table = l.table.shared.table_id; frame = M.frame l.table.shared.key.value } };

    ghost invariant = { λ l. (l.table.shared.table_id.words ≡ word_count) × (l.table.shared.table_id.slots ≡ 1) };
}

impl<M: Machine> HistoryLock<M> {
    /// Draws a turn, waits until all turns drawn before are served, and makes one step of the machine as this pass's
    /// caller. While there is a line it first lets others run, for some thousands of their turns at most.
    pub fn turn<R: Wait>(&self, rt: &R, pass: &mut Pass<M::Frame>, call: M::Call) -> M::Reply
        requires own { IsOf self.now pass.old }
        requires allowed { M.allowed self.now.frame pass.old.number call }
        ensures lock { IsOf self.now pass.new }
        ensures number { pass.new.number ≡ pass.old.number }
        ensures made { pass.new.made ≡ pass.old.made }
        ensures ended { pass.new.ended ≡ pass.old.ended }
        ensures answers { (P : List Entry)
            × IsPrefix pass.old.seen P
            × (own_entries P pass.old.number ≡ pass.old.mine)
            × M.answers self.now.frame P pass.old.number call result pass.new.seen
            × Gains pass.old.number P pass.new.seen pass.old.mine pass.new.mine }
    {
        let mut place: Place<M> = mem::replace(&mut pass.badge, Badge::blank()).into_seat();
        let mut machine = enter(&self.table, rt, &mut place);
        let reply = machine.step(pass.number, call);
        leave(&self.table, &mut place, machine);
        pass.badge = place.into_badge();
        reply
    }

    /// A pass with the next number, which has seen the same and made no call.
    pub fn split(&self, pass: &mut Pass<M::Frame>) -> Pass<M::Frame>
        requires own { IsOf self.now pass.old }
        requires first { pass.old.number ≡ 0 }
        requires room { pass.old.made < 4294967295 }
        ensures lock { IsOf self.now pass.new }
        ensures number { pass.new.number ≡ 0 }
        ensures seen { pass.new.seen ≡ pass.old.seen }
        ensures mine { pass.new.mine ≡ pass.old.mine }
        ensures made { pass.new.made ≡ pass.old.made + 1 }
        ensures ended { pass.new.ended ≡ pass.old.ended }
        ensures new_lock { IsOf self.now result }
        ensures new_number { result.number ≡ pass.old.made + 1 }
        ensures new_seen { result.seen ≡ pass.old.seen }
        ensures new_mine { result.mine ≡ [] }
    {
        let number = pass.made + 1;
        let mut place: Place<M> = mem::replace(&mut pass.badge, Badge::blank()).into_seat();
        let mut new_place = self.table.shared.split_seat::<Fork>(&mut place);
        self.table.shared.load::<Note>(&mut new_place, 1);
        pass.made = number;
        pass.badge = place.into_badge();
        Pass {
            number,
            made: 0,
            badge: new_place.into_badge(),
        }
    }

    /// Takes in another pass, which is spent. Number 0 has then seen all that either had seen.
    pub fn join(&self, pass: &mut Pass<M::Frame>, other: Pass<M::Frame>)
        requires own { IsOf self.now pass.old }
        requires other_own { IsOf self.now other }
        requires first { pass.old.number ≡ 0 }
        ensures lock { IsOf self.now pass.new }
        ensures number { pass.new.number ≡ 0 }
        ensures seen { pass.new.seen ≡ longer pass.old.seen other.seen }
        ensures old_seen { IsPrefix pass.old.seen pass.new.seen }
        ensures other_seen { IsPrefix other.seen pass.new.seen }
        ensures mine { pass.new.mine ≡ pass.old.mine }
        ensures made { pass.new.made ≡ pass.old.made }
        ensures ended { pass.new.ended ≡ pass.old.ended ++ (other.number, other.mine) ∷ [] }
    {
        let Pass {
            number: _,
            made: _,
            badge,
        } = other;
        let mut place: Place<M> = mem::replace(&mut pass.badge, Badge::blank()).into_seat();
        self.table
            .shared
            .join_seat::<Merge>(&mut place, badge.into_seat());
        self.table.shared.load::<Note>(&mut place, 1);
        pass.badge = place.into_badge();
    }
}

impl<M: Inspect> HistoryLock<M> {
    /// Waits for a turn as `turn` does, and asks the machine about the history that the pass has then seen.
    pub fn inspect<R: Wait>(
        &self,
        rt: &R,
        pass: &mut Pass<M::Frame>,
        question: M::Question,
    ) -> M::Finding
        requires { IsOf self.now pass.old }
        ensures pass { SeesMore self.now pass.old pass.new }
        ensures found { M.finds self.now.frame pass.new.seen question result }
    {
        let mut place: Place<M> = mem::replace(&mut pass.badge, Badge::blank()).into_seat();
        let machine = enter(&self.table, rt, &mut place);
        let found = machine.inspect(question);
        leave(&self.table, &mut place, machine);
        pass.badge = place.into_badge();
        found
    }
}

// The only slot of a table, with the machine.
fn slot_with<M: Drop>(alloc: Global, machine: M) -> Result<Vec<Option<M>>, AllocError>
    ensures { IfOk result (λ v. v.items ≡ Some machine ∷ []) }
{
    let mut slots = Vec::new(alloc);
    slots.push(Some(machine))?;
    Ok(slots)
}

impl<M: Machine + Drop> HistoryLock<M> {
    /// A lock round a machine with no past, and its first pass, which has number 0. The machine is given up where
    /// there is no memory.
    pub fn open(alloc: Global, machine: M) -> Result<(HistoryLock<M>, Pass<M::Frame>), AllocError>
        requires { M.past machine ≡ [] }
        ensures frame { IfOk result (λ r. r.0.frame ≡ M.frame machine) }
        ensures lock { IfOk result (λ r. IsOf r.0 r.1) }
        ensures number { IfOk result (λ r. r.1.number ≡ 0) }
        ensures seen { IfOk result (λ r. r.1.seen ≡ []) }
        ensures mine { IfOk result (λ r. r.1.mine ≡ []) }
        ensures made { IfOk result (λ r. r.1.made ≡ 0) }
        ensures ended { IfOk result (λ r. r.1.ended ≡ []) }
    {
        let like = Snapshot::of(&machine);
        let slots = slot_with(alloc, machine)?;
        let Ok((table, place)) = Table::new(alloc, &[0, 0], slots, &like) else {
            return Err(AllocError);
        };
        let pass = Pass {
            number: 0,
            made: 0,
            badge: place.into_badge(),
        };
        Ok((HistoryLock { table }, pass))
    }

    /// Ends the lock, and gives its machine where every turn that was drawn was served; else the machine is given up.
    /// Both counts are those of the lock's last moment, at which the pass was one of its views.
    pub fn close(self, pass: Pass<M::Frame>) -> Result<M, Unsettled>
        requires own { IsOf self pass }
        requires first { pass.number ≡ 0 }
        ensures frame { IfOk result (λ m. M.frame m ≡ self.frame) }
        ensures seen { IfOk result (λ m. IsPrefix pass.seen (M.past m)) }
        ensures mine { IfOk result (λ m. own_entries (M.past m) 0 ≡ pass.mine) }
        ensures ended { IfOk result (λ m. HasEnded (M.past m) pass.ended) }
        ensures above { IfOk result (λ m. HasNoneAbove (M.past m) pass.made) }
        ensures exact { (drawn : ℕ) × (served : ℕ)
            × WasLast M.past M.frame self.frame pass drawn served
            × IfOk result (λ m. drawn ≡ served)
            × IfErr result (λ u. (u.drawn ≡ drawn) × (u.served ≡ served) × (drawn ≢ served)) }
        ensures settled { AllEnded pass.made pass.ended → IsOk result }
    {
        let Pass {
            number: _,
            made: _,
            badge,
        } = pass;
        let HistoryLock { table } = self;
        let mut closed = table.close_with(badge.into_seat());
        let drawn = closed.word(0);
        let served = closed.word(1);
        let slot = closed.take(0);
        closed.free();
        if drawn != served {
            return Err(Unsettled { drawn, served });
        }
        Ok(slot.unwrap())
    }
}
