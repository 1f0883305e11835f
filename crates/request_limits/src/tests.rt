//! A few limits, worked by hand.
ghost use Rattle.std.specs.Prelude.{◌≡◌, ◌<◌};
ghost use Rattle.request_limits.specs.Limits.{kinds, slots};

use crate::held::Held;
use crate::limits::RequestLimits;
use std::process::Abort;
use std::test::Fail;

// Two slots and two kinds; three requests may be held.
#[derive(Drop)]
struct Small {
    limits: RequestLimits,
    ghost two_slots: { slots limits ≡ 2 },
    ghost two_kinds: { kinds limits ≡ 2 },
    ghost three_places: { limits.room ≡ 3 },
}

impl Small {
    // Each tenant may have two requests forwarded, and one of the second kind.
    fn open(rt: &HostRuntime) -> Result<Small, Fail> {
        let kind_limits = vec![in rt.alloc(); 0, 1]?;
        let limits = RequestLimits::open(rt.alloc(), 2, kind_limits, 2, 3)?;
        Ok(Small { limits })
    }

    // Whether a request that comes now is forwarded.
    fn forward(&mut self, slot: u32, kind: u32) -> bool
        requires slot { slot < 2 }
        requires kind { kind < 2 }
    {
        let goes = self.limits.goes_at_once(slot, kind) && self.limits.sent_of(slot) < u32::MAX;
        if goes {
            self.limits.forwarded(slot, kind);
        }
        goes
    }

    // Whether one had been forwarded, which has ended now.
    fn end(&mut self, slot: u32, kind: u32) -> bool
        requires slot { slot < 2 }
        requires kind { kind < 2 }
    {
        let some = self.limits.sent_in(slot, kind) > 0;
        if some {
            self.limits.ended(slot, kind);
        }
        some
    }

    // Whether there is room to hold one more. Its place is free.
    fn hold<R: Abort>(&mut self, rt: &R, slot: u32, kind: u32, held: Held) -> bool
        requires slot { slot < 2 }
        requires kind { kind < 2 }
    {
        let other = self.limits.remove(held.place);
        assert!(rt; other.is_none());
        let space = self.limits.held() < 3;
        if space {
            self.limits.hold(slot, kind, held);
        }
        space
    }
}

// A request with this ticket at this place.
fn held(ticket: u64, place: u32) -> Held {
    Held { ticket, place }
}

// A tenant's limit counts all kinds, a kind's limit those of one tenant. Lowered below what is forwarded it lets none
// pass until enough have ended; 0 is no limit.
#[test]
fn both_limits_hold(rt: HostRuntime) -> Result<(), Fail> {
    let mut small = Small::open(&rt)?;
    assert!(rt; small.forward(0, 1));
    assert!(rt; !small.forward(0, 1), "one of the second kind");
    assert!(rt; small.forward(0, 0));
    assert!(rt; !small.forward(0, 0), "two of the tenant");
    assert!(rt; small.forward(1, 1), "of another tenant");
    small.limits.set_limit(0, 1);
    assert!(rt; small.end(0, 0));
    assert!(rt; !small.forward(0, 0), "one is forwarded still");
    assert!(rt; small.end(0, 1));
    assert!(rt; !small.end(0, 1), "none is forwarded");
    assert!(rt; small.forward(0, 0));
    small.limits.set_limit(0, 0);
    assert!(rt; small.forward(0, 0) && small.forward(0, 0) && small.forward(0, 1));
    assert!(rt; !small.forward(0, 1), "the limit of the kind stays");
    assert_eq!(rt; small.limits.sent_of(0), 4);
    assert_eq!(rt; small.limits.limit_of(1), 2);
    Ok(())
}

// The older of two held requests is of a kind that is at its limit, so that the younger goes first; once one of the
// older's kind has ended it goes before the younger.
#[test]
fn the_oldest_that_passes_goes(rt: HostRuntime) -> Result<(), Fail> {
    let mut small = Small::open(&rt)?;
    assert!(rt; small.forward(0, 1) && small.forward(0, 0));
    assert!(rt; small.hold(&rt, 0, 1, held(2, 1)) && small.hold(&rt, 0, 0, held(3, 0)));
    assert_eq!(rt; small.limits.next_to_go(0), None);
    assert!(rt; small.end(0, 0));
    assert_eq!(rt; small.limits.next_to_go(0), Some((0, held(3, 0))));
    assert!(rt; !small.forward(0, 0), "one of the kind is held");
    assert_eq!(rt; small.limits.next_to_go(1), None);
    assert!(rt; small.end(0, 1));
    assert_eq!(rt; small.limits.next_to_go(0), Some((1, held(2, 1))));
    assert_eq!(rt; small.limits.release(0, 1), Some(held(2, 1)));
    assert_eq!(rt; small.limits.next_to_go(0), Some((0, held(3, 0))));
    Ok(())
}

// One is removed from the middle, and the others stay in order. The room is full before, and not after.
#[test]
fn one_is_removed(rt: HostRuntime) -> Result<(), Fail> {
    let mut small = Small::open(&rt)?;
    assert!(rt; small.hold(&rt, 1, 0, held(4, 2)) && small.hold(&rt, 1, 0, held(5, 0)));
    assert!(rt; small.hold(&rt, 1, 0, held(7, 1)) && !small.hold(&rt, 1, 1, held(8, 9)));
    assert_eq!(rt; small.limits.remove(0), Some(held(5, 0)));
    assert_eq!(rt; small.limits.remove(0), None);
    assert!(rt; small.hold(&rt, 1, 1, held(8, 9)));
    assert_eq!(rt; small.limits.release(1, 0), Some(held(4, 2)));
    assert_eq!(rt; small.limits.release(1, 0), Some(held(7, 1)));
    assert_eq!(rt; small.limits.release(1, 0), None);
    assert_eq!(rt; small.limits.held(), 1);
    Ok(())
}
