//! The table.
ghost use Rattle.std.specs.Prelude.{◌≡◌, ◌<◌, ◌≤◌, [], length, is_some, IfOk, MatchOption, option_copied, vec_capacity};
ghost use Rattle.waiting_table.specs.Table.{first_from, forwarded, row_at, row_of, with_row, without, IsAbove, IsFree, IsTable};
ghost use Rattle.waiting_table.specs.Due.{HasNoDeadline, IsFirstDue};
ghost use Rattle.waiting_table.specs.Kept.{key_at, ArePlaces, IsInRange};

use crate::order::TicketOrder;
use crate::row::{Coming, Due, Waiting};
use std::alloc::{AllocError, Global};
use std::marker::Model;
use winner_tree::{Key, Tree};

/// The most places of a room.
pub const MOST_PLACES: u32 = 1048576;

/// The requests that wait, by ticket. Contracts see the rows in the order of their tickets, and the number of places.
///
/// On average a call takes time that grows with the logarithm of the number of rows; a removal now and then takes time
/// that grows with the number itself. `first_from` also passes over what was removed: at most as many entries as there
/// are rows.
#[derive(Drop)]
pub struct WaitingTable {
    order: TicketOrder,
    // the places that nobody has
    free: Vec<u32>,
    // the deadlines by place
    deadlines: Tree,
}

impl Model for WaitingTable {
    ghost use Rattle.std.specs.Prelude.{vec_capacity};
    ghost use Rattle.waiting_table.specs.Table.{TableView};
    ghost use Rattle.waiting_table.specs.Kept.{KeepsTable};

    ghost Value = { TableView };

    ghost view = { λ t. t.order };

    ghost invariant = { λ t. KeepsTable t.order t.free.items (vec_capacity t.free) t.deadlines };
}

impl WaitingTable {
    /// An empty table of 1 to 1,048,576 places. All memory is taken here.
    pub fn open(alloc: Global, room: u32) -> Result<WaitingTable, AllocError>
        requires at_least_one { 1 ≤ room }
        requires in_range { room ≤ MOST_PLACES }
        ensures { IfOk result (λ t. t ≡ record { rows = []; room = room }) }
    {
        let order = TicketOrder::open(alloc, room)?;
        let free = all_places(alloc, room)?;
        let deadlines = Tree::open(alloc, room)?;
        Ok(WaitingTable {
            order,
            free,
            deadlines,
        })
    }

    /// A request waits from now on. Tells the place that it gets.
    pub fn push(&mut self, coming: Coming) -> u32
        requires space { length self.old.rows < self.old.room }
        requires above { IsAbove self.old coming.ticket }
        ensures added { self.new ≡ with_row self.old (row_at result coming) }
        ensures place { IsFree self.old result }
    {
        let Some(place) = self.free.pop() else {
            unreachable!();
        };
        let row = coming.at(place);
        self.deadlines.set(place, key_of(&row));
        self.order.push(row);
        place
    }

    /// The row of a ticket.
    pub fn get(&self, ticket: u64) -> Option<&Waiting>
        ensures { option_copied result ≡ row_of self.now ticket }
    {
        self.order.get(ticket)
    }

    /// Removes the row of a ticket: its request runs, or is withdrawn. Its place is free from now on.
    pub fn remove(&mut self, ticket: u64) -> Option<Waiting>
        ensures found { result ≡ row_of self.old ticket }
        ensures rest { self.new ≡ without self.old ticket }
    {
        let row = self.order.remove(ticket)?;
        self.deadlines.set(row.place, None);
        self.free.push_reserved(row.place);
        Some(row)
    }

    /// Gives the row of a ticket its number in the scheduler. Tells whether there is such a row.
    pub fn forward(&mut self, ticket: u64, request: u32) -> bool
        ensures found { result ≡ is_some (row_of self.old ticket) }
        ensures forwarded { self.new ≡ forwarded self.old ticket request }
    {
        self.order.forward(ticket, request)
    }

    /// The least deadline, of equal ones that of the least ticket.
    pub fn first_deadline(&self) -> Option<Due>
        ensures { MatchOption result (HasNoDeadline self.now) (IsFirstDue self.now) }
    {
        let (_, key) = self.deadlines.first()?;
        Some(Due {
            deadline: key.a as u64,
            ticket: key.b as u64,
        })
    }

    /// The first row of which the ticket is this or a greater one. Who asks from ticket 0 on, and then each time from
    /// the next number on, walks over all rows in order, whatever it forwards on its way.
    pub fn first_from(&self, ticket: u64) -> Option<&Waiting>
        ensures { option_copied result ≡ first_from self.now ticket }
    {
        self.order.first_from(ticket)
    }

    /// How many requests wait.
    pub fn len(&self) -> u32
        ensures count { result ≡ length self.now.rows }
        ensures table { IsTable self.now }
    {
        self.order.len()
    }
}

// The key of a row among the deadlines: by deadline, then by ticket.
fn key_of(row: &Waiting) -> Option<Key>
    ensures key { result ≡ key_at row.now }
    ensures in_range { IsInRange row.now }
{
    let ticket = row.ticket;
    let deadline = row.deadline?;
    Some(Key {
        a: deadline as i128,
        b: ticket as i128,
        c: 0,
    })
}

// All places of a room, of which the first is the last.
fn all_places(alloc: Global, room: u32) -> Result<Vec<u32>, AllocError>
    ensures places { IfOk result (λ v. ArePlaces [] v.items room) }
    ensures all { IfOk result (λ v. length v.items ≡ room) }
    ensures reserved { IfOk result (λ v. vec_capacity v ≡ room) }
{
    let mut free = Vec::with_capacity(alloc, room as usize)?;
    'places: for given in 0..room {
        free.push_reserved(room - 1 - given);
    }
    Ok(free)
}
