//! The fact that each step on the table gives its maker.
ghost use Rattle.history_lock.specs.Plays.{drew, looked, gave, noted};
ghost use Rattle.history_lock.specs.Views.{parent, child, joined, spent_view};

use crate::machine::Machine;
use crate::table::View;
use atomic_table::{Join, Play, Split};

/// A turn is drawn.
pub(crate) struct Draw;

impl<M: Machine> Play<Option<M>, View<M::Frame>> for Draw {
    ghost then = { drew };
}

/// A look at the turn that is served, which takes the machine where it is the caller's.
pub(crate) struct Look;

impl<M: Machine> Play<Option<M>, View<M::Frame>> for Look {
    ghost then = { looked M.past M.frame };
}

/// The machine is given back, and the next turn is served.
pub(crate) struct Give;

impl<M: Machine> Play<Option<M>, View<M::Frame>> for Give {
    ghost then = { gave M.past };
}

/// A pass that holds no turn learns the facts that the rule has about it.
pub(crate) struct Note;

impl<M: Machine> Play<Option<M>, View<M::Frame>> for Note {
    ghost then = { noted };
}

/// A pass is made.
pub(crate) struct Fork;

impl<F> Split<View<F>> for Fork {
    ghost left = { parent };

    ghost right = { child };
}

/// A pass is taken in.
pub(crate) struct Merge;

impl<F> Join<View<F>> for Merge {
    ghost both = { joined };

    ghost spent = { spent_view };
}
