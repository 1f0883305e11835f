//! A few rooms, worked by hand.
ghost use Rattle.std.specs.Prelude.{◌≡◌, ◌<◌, length};

use crate::refusal::Refusal;
use crate::room::Room;
use std::process::Abort;

// A request of this slot enters, or is refused.
fn ask(room: &mut Room, slot: u32) -> Result<(), Refusal>
    requires { slot < length room.old.waiting }
    ensures { length room.new.waiting ≡ length room.old.waiting }
{
    room.may_enter(slot)?;
    room.enter(slot);
    Ok(())
}

// Just so many requests of this slot enter, and the next one is refused.
fn flood<R: Abort>(rt: &R, room: &mut Room, slot: u32, wanted: u32, refusal: Refusal)
    requires { slot < length room.old.waiting }
    ensures { length room.new.waiting ≡ length room.old.waiting }
{
    for _i in 0..wanted {
        let told = ask(room, slot);
        assert!(rt; told.is_ok());
    }
    let told = ask(room, slot);
    assert!(rt; told == Err(refusal));
}

// Of 20 places each of four tenants has 2 of its own, and 12 are shared. A flood takes half of these, and what comes
// then half of the rest, rounded up.
#[test]
fn floods_leave_half(rt: HostRuntime) {
    let opened = Room::open(rt.alloc(), 20, 4, 0);
    if let Ok(mut room) = opened {
        flood(&rt, &mut room, 0, 8, Refusal::TenantFull);
        flood(&rt, &mut room, 1, 5, Refusal::TenantFull);
        flood(&rt, &mut room, 2, 4, Refusal::TenantFull);
        flood(&rt, &mut room, 3, 3, Refusal::TooManyWait);
    }
}

// One tenant has all places. With a limit for each tenant it has no more than that.
#[test]
fn one_slot_has_all(rt: HostRuntime) {
    let opened = Room::open(rt.alloc(), 3, 1, 0);
    if let Ok(mut room) = opened {
        flood(&rt, &mut room, 0, 3, Refusal::TooManyWait);
    }
    let opened = Room::open(rt.alloc(), 3, 1, 2);
    if let Ok(mut room) = opened {
        flood(&rt, &mut room, 0, 2, Refusal::TenantFull);
    }
}

// A limit of 3 for each tenant: the second finds 2 places of 5.
#[test]
fn limit_alone(rt: HostRuntime) {
    let opened = Room::open(rt.alloc(), 5, 2, 3);
    if let Ok(mut room) = opened {
        flood(&rt, &mut room, 0, 3, Refusal::TenantFull);
        flood(&rt, &mut room, 1, 2, Refusal::TooManyWait);
        if room.waiting_of(0) > 0 {
            room.leave(0);
        }
        flood(&rt, &mut room, 0, 1, Refusal::TooManyWait);
    }
}
