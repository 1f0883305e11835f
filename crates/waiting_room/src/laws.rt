//! The laws, one function a law: its contract is the law, and its body is empty.
ghost use Rattle.waiting_room.specs.Laws.{WaitingFits, OwnPlacesAreKept, LimitAloneDecides, FloodsAreHalved};

/// No more requests wait than there are places.
pub fn waiting_fits()
    ensures { WaitingFits }
{}

/// A tenant with fewer requests waiting than its own places is not refused, where there is no limit for each tenant.
pub fn own_places_are_kept()
    ensures { OwnPlacesAreKept }
{}

/// With a limit for each tenant, one below the limit is refused only if all places are taken.
pub fn limit_alone_decides()
    ensures { LimitAloneDecides }
{}

/// A tenant that enters beyond its own places has then at most one shared place more than are free, so that a flood of
/// one tenant leaves half of the shared places to others, rounded down.
pub fn floods_are_halved()
    ensures { FloodsAreHalved }
{}
