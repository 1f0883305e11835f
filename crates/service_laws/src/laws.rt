//! The laws, one function a law: its contract is the law, and its body is empty.
ghost use Rattle.service_model.specs.Laws.{FloodsAreHalved, KindLimitsAreKept, NoGrantIsLate, OwnPlacesAreKept, RestsForCause, RoomIsKept, SchedulersAreLegal, WaitingFitsRoom};

/// What waits came to the room as the room lets it, so that all laws of the room hold.
pub fn room_is_kept()
    ensures { RoomIsKept }
{}

/// No more requests wait than the room has places.
pub fn waiting_fits_room()
    ensures { WaitingFitsRoom }
{}

/// If the tenants share the room, one with fewer requests waiting than its own places is not refused by the room.
pub fn own_places_are_kept()
    ensures { OwnPlacesAreKept }
{}

/// If the tenants share the room, one that is admitted beyond its own places has then at most one shared place more
/// than are free, so that a flood of one tenant leaves half of the shared places to others, rounded down.
pub fn floods_are_halved()
    ensures { FloodsAreHalved }
{}

/// Of a tenant and kind no more requests are forwarded and not ended than the limit of the kind.
pub fn kind_limits_are_kept()
    ensures { KindLimitsAreKept }
{}

/// Nothing is granted after its deadline.
pub fn no_grant_is_late()
    ensures { NoGrantIsLate }
{}

/// A next is answered by rest only if nothing waits in the present scheduler, or as many requests run as there are
/// workers, or all free workers decline.
pub fn rests_for_cause()
    ensures { RestsForCause }
{}

/// Each of the two schedulers has the configuration of the service, with weights of its own, and a legal history: so
/// each grant is the policy's choice for that worker, and all laws of schedulers hold of what a service runs, from one
/// scheduler's first entry to its last.
pub fn schedulers_are_legal()
    ensures { SchedulersAreLegal }
{}
