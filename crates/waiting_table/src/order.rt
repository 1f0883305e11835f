//! Rows in the order of their tickets.
ghost use Rattle.std.specs.Prelude.{◌≡◌, ◌<◌, ◌≤◌, [], length, is_some, IfOk, MatchOption, option_copied, slice_get, vec_capacity};
ghost use Rattle.waiting_table.specs.Table.{first_from, forwarded, row_of, with_row, without, AreRising, IsAbove};
ghost use Rattle.waiting_table.specs.Order.{rows_of, squeezed, EndsAt, EntriesRise, HasNone, IsEntryOf, IsPlaceOf};

use crate::row::Waiting;
use std::alloc::{AllocError, Global};
use std::marker::Model;

/// A row and whether it waits. An entry of which the row waits no more is a hole, which keeps its ticket.
#[derive(Clone, Copy)]
struct Entry {
    pub row: Waiting,
    pub waits: bool,
}

/// Rows in the order of their tickets. Contracts see a table.
///
/// A row is added at the end, and found by a binary search. A removal leaves a hole. Once more than half of the entries
/// are holes, all of them are squeezed out: on average that takes constant time for each removal.
#[derive(Drop)]
pub struct TicketOrder {
    entries: Vec<Entry>,
    waiting: u32,
    room: u32,
}

impl Model for TicketOrder {
    ghost use Rattle.std.specs.Prelude.{vec_capacity};
    ghost use Rattle.waiting_table.specs.Table.{TableView};
    ghost use Rattle.waiting_table.specs.Order.{rows_of, KeepsOrder};

    ghost Value = { TableView };

    ghost view = { λ o. record { rows = rows_of o.entries.items; room = o.room } };

    ghost invariant = { λ o. KeepsOrder o.entries.items o.waiting o.room (vec_capacity o.entries) };
}

impl TicketOrder {
    /// No rows, with memory for as many as the room has places. All memory is taken here.
    pub fn open(alloc: Global, room: u32) -> Result<TicketOrder, AllocError>
        ensures { IfOk result (λ o. o ≡ record { rows = []; room = room }) }
    {
        let entries = Vec::with_capacity(alloc, 2 * room as usize)?;
        Ok(TicketOrder {
            entries,
            waiting: 0,
            room,
        })
    }

    /// Adds a row with a ticket above all.
    pub fn push(&mut self, row: Waiting)
        requires space { length self.old.rows < self.old.room }
        requires above { IsAbove self.old row.ticket }
        ensures { self.new ≡ with_row self.old row }
    {
        let end = end_of(&self.entries);
        self.entries.truncate(end);
        self.entries.push_reserved(Entry { row, waits: true });
        self.waiting += 1;
    }

    /// The row of a ticket.
    pub fn get(&self, ticket: u64) -> Option<&Waiting>
        ensures { option_copied result ≡ row_of self.now ticket }
    {
        let at = index_of(&self.entries, ticket)?;
        Some(&self.entries[at].row)
    }

    /// The first row of which the ticket is this or a greater one.
    pub fn first_from(&self, ticket: u64) -> Option<&Waiting>
        ensures { option_copied result ≡ first_from self.now ticket }
    {
        let from = place_of(&self.entries, ticket);
        first_of(&self.entries[from..])
    }

    /// Removes the row of a ticket.
    pub fn remove(&mut self, ticket: u64) -> Option<Waiting>
        ensures found { result ≡ row_of self.old ticket }
        ensures rest { self.new ≡ without self.old ticket }
    {
        let at = index_of(&self.entries, ticket)?;
        let row = self.entries[at].row;
        self.entries[at].waits = false;
        self.waiting -= 1;
        squeeze(&mut self.entries, self.waiting);
        Some(row)
    }

    /// Gives the row of a ticket its number in the scheduler. Tells whether there is such a row.
    pub fn forward(&mut self, ticket: u64, request: u32) -> bool
        ensures found { result ≡ is_some (row_of self.old ticket) }
        ensures forwarded { self.new ≡ forwarded self.old ticket request }
    {
        let Some(at) = index_of(&self.entries, ticket) else {
            return false;
        };
        self.entries[at].row.request = Some(request);
        true
    }

    /// How many rows there are.
    pub fn len(&self) -> u32
        ensures count { result ≡ length self.now.rows }
        ensures rising { AreRising self.now.rows }
        ensures fits { result ≤ self.now.room }
    {
        self.waiting
    }
}

// The number of entries up to the last one that waits.
fn end_of(entries: &[Entry]) -> usize
    ensures { EndsAt entries.now result }
{
    let mut end = entries.len();
    'holes: while end > 0 && !entries[end - 1].waits {
        end -= 1;
    }
    end
}

// Squeezes out the holes if more than half of the entries are holes: so many rows wait.
fn squeeze(entries: &mut Vec<Entry>, waiting: u32)
    ensures items { entries.new.items ≡ squeezed waiting entries.old.items }
    ensures capacity { vec_capacity entries.new ≡ vec_capacity entries.old }
{
    if entries.len() > 2 * waiting as usize {
        entries.retain(|entry| entry.waits);
    }
}

// The index of the first entry of which the ticket is this or a greater one.
fn place_of(entries: &[Entry], ticket: u64) -> usize
    requires { EntriesRise entries.now }
    ensures { IsPlaceOf entries.now ticket result }
{
    entries.partition_point(|entry| entry.row.ticket < ticket)
}

// The index at which the row of a ticket waits.
fn index_of(entries: &[Entry], ticket: u64) -> Option<usize>
    requires { EntriesRise entries.now }
    ensures { MatchOption result (HasNone entries.now ticket) (IsEntryOf entries.now ticket) }
{
    let at = place_of(entries, ticket);
    let entry = entries.get(at)?;
    if entry.waits && entry.row.ticket == ticket {
        Some(at)
    } else {
        None
    }
}

// The first row that waits.
fn first_of(entries: &[Entry]) -> Option<&Waiting>
    ensures { option_copied result ≡ slice_get (rows_of entries.now) 0 }
{
    for entry in entries {
        if entry.waits {
            return Some(&entry.row);
        }
    }
    None
}
