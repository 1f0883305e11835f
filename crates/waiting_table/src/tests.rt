//! A few tables, worked by hand.
ghost use Rattle.std.specs.Prelude.{◌≡◌};

use crate::row::{Coming, Due, Waiting};
use crate::table::WaitingTable;
use std::process::Abort;

// A request waits from now on, with its ticket as its label. Tells its place.
fn add<R: Abort>(
    rt: &R,
    table: &mut WaitingTable,
    room: u32,
    ticket: u64,
    deadline: Option<u64>,
) -> u32
    requires { table.old.room ≡ room }
    ensures { table.new.room ≡ room }
{
    let waiting = table.len();
    assert!(rt; waiting < room);
    match table.first_from(ticket) {
        None => table.push(Coming {
            ticket,
            slot: 3,
            kind: 1,
            declared: 10,
            deadline,
            label: ticket,
            came: 100,
            request: None,
        }),
        Some(_) => panic!(rt; "the ticket is not above all"),
    }
}

// The place of the row of this ticket, which is removed.
fn place_left<R: Abort>(rt: &R, table: &mut WaitingTable, ticket: u64) -> u32
    ensures { table.new.room ≡ table.old.room }
{
    let row = table.remove(ticket);
    assert!(rt; row.is_some());
    row.map_or(0, |row| row.place)
}

// The ticket of the first row from this ticket on.
fn ticket_from(table: &WaitingTable, ticket: u64) -> Option<u64> {
    table.first_from(ticket).map(|row| row.ticket)
}

// Of two equal deadlines the lesser ticket's comes first, though the other one came at a lower place. A row without a
// deadline is never the first.
#[test]
fn deadlines_in_order(rt: HostRuntime) {
    let opened = WaitingTable::open(rt.alloc(), 5);
    if let Ok(mut table) = opened {
        assert!(rt; table.first_deadline() == None);
        add(&rt, &mut table, 5, 4, Some(30));
        add(&rt, &mut table, 5, 5, Some(30));
        place_left(&rt, &mut table, 4);
        add(&rt, &mut table, 5, 7, Some(20));
        add(&rt, &mut table, 5, 9, Some(20));
        add(&rt, &mut table, 5, 11, None);
        assert!(rt;
            table.first_deadline()
                == Some(Due {
                    deadline: 20,
                    ticket: 7
                })
        );
        place_left(&rt, &mut table, 7);
        assert!(rt;
            table.first_deadline()
                == Some(Due {
                    deadline: 20,
                    ticket: 9
                })
        );
        place_left(&rt, &mut table, 9);
        assert!(rt;
            table.first_deadline()
                == Some(Due {
                    deadline: 30,
                    ticket: 5
                })
        );
        place_left(&rt, &mut table, 5);
        assert!(rt; table.first_deadline() == None);
        assert!(rt; table.len() == 1);
    }
}

// The greatest deadline is one, too: moments may be any number of 64 bits.
#[test]
fn greatest_deadline(rt: HostRuntime) {
    let opened = WaitingTable::open(rt.alloc(), 2);
    if let Ok(mut table) = opened {
        add(&rt, &mut table, 2, 0, Some(u64::MAX));
        assert!(rt;
            table.first_deadline()
                == Some(Due {
                    deadline: u64::MAX,
                    ticket: 0
                })
        );
        add(&rt, &mut table, 2, 1, Some(0));
        assert!(rt;
            table.first_deadline()
                == Some(Due {
                    deadline: 0,
                    ticket: 1
                })
        );
    }
}

// Three places are given once each; the one that becomes free is given again.
#[test]
fn full_table(rt: HostRuntime) {
    let opened = WaitingTable::open(rt.alloc(), 3);
    if let Ok(mut table) = opened {
        let first = add(&rt, &mut table, 3, 10, None);
        let second = add(&rt, &mut table, 3, 20, None);
        let third = add(&rt, &mut table, 3, 30, None);
        assert!(rt; first < 3 && second < 3 && third < 3);
        assert!(rt; first != second && first != third && second != third);
        assert!(rt; place_left(&rt, &mut table, 20) == second);
        assert!(rt; table.remove(20) == None);
        assert!(rt; add(&rt, &mut table, 3, 40, None) == second);
        assert!(rt; table.len() == 3);
        assert!(rt; ticket_from(&table, 11) == Some(30));
    }
}

// One old request waits while a thousand others come and go, two at a time.
#[test]
fn old_one_stays(rt: HostRuntime) {
    let opened = WaitingTable::open(rt.alloc(), 3);
    if let Ok(mut table) = opened {
        add(&rt, &mut table, 3, 7, Some(5));
        for k in 0u32..500 {
            let ticket = 1000000000000 + 2 * k as u64;
            add(&rt, &mut table, 3, ticket, Some(6));
            add(&rt, &mut table, 3, ticket + 1, Some(4));
            assert!(rt; ticket_from(&table, 8) == Some(ticket));
            assert!(rt;
                table.first_deadline()
                    == Some(Due {
                        deadline: 4,
                        ticket: ticket + 1
                    })
            );
            place_left(&rt, &mut table, ticket);
            assert!(rt; ticket_from(&table, 8) == Some(ticket + 1));
            place_left(&rt, &mut table, ticket + 1);
            assert!(rt; ticket_from(&table, 8) == None);
            assert!(rt; ticket_from(&table, 0) == Some(7));
        }
        assert!(rt; table.len() == 1);
    }
}

// Tickets up to the greatest number of 64 bits.
#[test]
fn greatest_tickets(rt: HostRuntime) {
    let opened = WaitingTable::open(rt.alloc(), 2);
    if let Ok(mut table) = opened {
        add(&rt, &mut table, 2, u64::MAX - 1, None);
        add(&rt, &mut table, 2, u64::MAX, Some(1));
        assert!(rt; ticket_from(&table, u64::MAX) == Some(u64::MAX));
        assert!(rt; ticket_from(&table, 0) == Some(u64::MAX - 1));
        assert!(rt;
            table.first_deadline()
                == Some(Due {
                    deadline: 1,
                    ticket: u64::MAX
                })
        );
        place_left(&rt, &mut table, u64::MAX);
        assert!(rt; ticket_from(&table, u64::MAX) == None);
    }
}

// A table of one place. The ticket of a row that is gone may come again, if it is above all that wait.
#[test]
fn one_place(rt: HostRuntime) {
    let opened = WaitingTable::open(rt.alloc(), 1);
    if let Ok(mut table) = opened {
        assert!(rt; add(&rt, &mut table, 1, 5, None) == 0);
        assert!(rt; place_left(&rt, &mut table, 5) == 0);
        assert!(rt; add(&rt, &mut table, 1, 5, Some(8)) == 0);
        assert!(rt;
            table.first_deadline()
                == Some(Due {
                    deadline: 8,
                    ticket: 5
                })
        );
    }
}

// Behind rows that wait, a hole keeps a ticket that comes again, or a greater one than that which comes.
#[test]
fn ticket_again(rt: HostRuntime) {
    let opened = WaitingTable::open(rt.alloc(), 4);
    if let Ok(mut table) = opened {
        add(&rt, &mut table, 4, 1, None);
        add(&rt, &mut table, 4, 2, None);
        add(&rt, &mut table, 4, 8, None);
        place_left(&rt, &mut table, 8);
        add(&rt, &mut table, 4, 8, None);
        assert!(rt; ticket_from(&table, 3) == Some(8));
        place_left(&rt, &mut table, 8);
        add(&rt, &mut table, 4, 5, None);
        assert!(rt; ticket_from(&table, 3) == Some(5));
        assert!(rt; table.get(8) == None);
    }
}

// A walk over all rows numbers each of them, in the order of their tickets.
#[test]
fn walk(rt: HostRuntime) {
    let opened = WaitingTable::open(rt.alloc(), 4);
    if let Ok(mut table) = opened {
        add(&rt, &mut table, 4, 3, None);
        add(&rt, &mut table, 4, 100, Some(9));
        add(&rt, &mut table, 4, 101, None);
        add(&rt, &mut table, 4, 900, None);
        place_left(&rt, &mut table, 100);
        let mut from = 0;
        for request in 0u32..3 {
            let ticket = ticket_from(&table, from).unwrap_or(0);
            assert!(rt; table.forward(ticket, request));
            from = ticket.saturating_add(1);
        }
        assert!(rt; ticket_from(&table, from) == None);
        assert!(rt; !table.forward(100, 5));
        assert!(rt; table.get(101).map(|row| row.request) == Some(Some(1)));
        assert!(rt; table.get(900).map(|row| row.request) == Some(Some(2)));
        let row = Waiting {
            ticket: 3,
            place: place_of(&table, 3),
            slot: 3,
            kind: 1,
            declared: 10,
            deadline: None,
            label: 3,
            came: 100,
            request: Some(0),
        };
        assert!(rt; table.get(3) == Some(&row));
    }
}

// The place of the row of this ticket.
fn place_of(table: &WaitingTable, ticket: u64) -> u32 {
    table.get(ticket).map_or(0, |row| row.place)
}
