//! The laws, one function a law: its contract is the law, and its body is empty.
ghost use Rattle.request_limits.specs.Laws.{CellsAreApart, PassingKeepsLimits, NextIsOldest, NoneIsLeft, OrderIsKept};

/// Another count of a slot and kind, or other held requests of them, change those of no other slot and kind. The sum of
/// the slot and the number of all held requests change alike, and the sum of no other slot does.
pub fn cells_are_apart()
    ensures { CellsAreApart }
{}

/// Once a request that passes is forwarded, its tenant and its kind are within their limits.
pub fn passing_keeps_limits()
    ensures { PassingKeepsLimits }
{}

/// If the held requests of each slot and kind are in the order of their tickets, the next to go is the oldest of all
/// held ones of its slot that pass.
pub fn next_is_oldest()
    ensures { NextIsOldest }
{}

/// If none of a slot may go, no held request of it passes.
pub fn none_is_left()
    ensures { NoneIsLeft }
{}

/// The held requests of each slot and kind stay in the order of their tickets, if each that is held has a greater
/// ticket than those of its slot and kind, and whichever is held no more.
pub fn order_is_kept()
    ensures { OrderIsKept }
{}
