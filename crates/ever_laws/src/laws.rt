//! The laws, one function a law: its contract is the law, and its body is empty.
ghost use Rattle.ever_laws.specs.Laws.{LeastRises, GroundRises, MostStaysNear, CapStaysNear, BoundHolds, LeadIsBounded, AccountsAreBounded, TakesAreBounded, ChargeIsBounded, OthersAreBounded, GainIsBounded, LengthsAreForetold, LeadIsForetold, LongestIsNoShorter, LongestIsLeast, MeasuredBoundHolds};

/// The least of a tenant, its start if its running requests turn out to cost nothing, never falls.
pub fn least_rises()
    ensures { LeastRises }
{}

/// Nor does its ground, which is, where it does not wait, the least that it would have if a request of it came now.
pub fn ground_rises()
    ensures { GroundRises }
{}

/// The most of a tenant stays near virtual time: lifted by each Take, this is never far behind the taken request.
pub fn most_stays_near()
    ensures { MostStaysNear }
{}

/// The cap stays near the least of a tenant that waits, and so does virtual time, which never passes the cap.
pub fn cap_stays_near()
    ensures { CapStaysNear }
{}

/// So the most of one tenant is never far above the ground of another.
pub fn bound_holds()
    ensures { BoundHolds }
{}

/// While a tenant waits no other is ahead of it by more than one request of the greatest length for each worker, for
/// every second worker, and for one more, and by one part of a length: whatever happened before, and however wrong the
/// estimates.
pub fn lead_is_bounded()
    ensures { LeadIsBounded }
{}

/// So it is by any account of the two, charged, finished or measured otherwise.
pub fn accounts_are_bounded()
    ensures { AccountsAreBounded }
{}

/// While a head waits, another tenant whose requests have a least length above 0 is taken at most as often as that
/// length goes into the bound and one request of the greatest length, and once more.
pub fn takes_are_bounded()
    ensures { TakesAreBounded }
{}

/// Meanwhile it is charged no more, in steps, than twice the bound, two more, and one request of the greatest length for
/// each worker, whatever its least length.
pub fn charge_is_bounded()
    ensures { ChargeIsBounded }
{}

/// So all others together are charged no more than that for each tenant before a head that waits is taken.
pub fn others_are_bounded()
    ensures { OthersAreBounded }
{}

/// The gain of one tenant on another over a while in which both wait, in the manner of Golestani (1994), by any account
/// and from any moment on.
pub fn gain_is_bounded()
    ensures { GainIsBounded }
{}

/// Where no estimate, use or cost of any tenant passes c, and no weight falls below w, no request is longer than c at
/// weight w.
pub fn lengths_are_foretold()
    ensures { LengthsAreForetold }
{}

/// So the bound is known before the first request comes.
pub fn lead_is_foretold()
    ensures { LeadIsForetold }
{}

/// No request of a history is longer than the greatest length in it.
pub fn longest_is_no_shorter()
    ensures { LongestIsNoShorter }
{}

/// And that length is the least of which this holds.
pub fn longest_is_least()
    ensures { LongestIsLeast }
{}

/// So the bound that `lead` measures holds: no tenant is further ahead of one that waits.
pub fn measured_bound_holds()
    ensures { MeasuredBoundHolds }
{}
