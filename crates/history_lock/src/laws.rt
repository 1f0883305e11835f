//! How histories in order of time and those with the newest entry first meet, one function a law: its contract is the
//! law, and its body is empty. And a machine to try a lock with.
ghost use Rattle.history_lock.specs.Laws.{OwnTurnsRound, PrefixTurnsRound, GrowthTurnsRound};

pub use crate::echo::Echo;

/// The own entries of a history with its newest entry first are those in order of time, turned round.
pub fn own_turns_round()
    ensures { OwnTurnsRound }
{}

/// A prefix in order of time is, with the newest entry first, the history without its newer entries.
pub fn prefix_turns_round()
    ensures { PrefixTurnsRound }
{}

/// One entry more in order of time is one entry more at the front of the history with its newest entry first.
pub fn growth_turns_round()
    ensures { GrowthTurnsRound }
{}
