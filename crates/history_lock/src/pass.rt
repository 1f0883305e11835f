//! Passes.
ghost use Rattle.std.specs.Prelude.{◌≡◌};
ghost use Rattle.fq_model.specs.Outcome.{own_entries};

use crate::table::View;
use atomic_table::Badge;
use std::marker::Model;

/// A right to take turns at one lock, by a caller with a number. It is no copy of another, and must be spent: by
/// `join`, or the last one by `close`. F is the frame of the lock's machine. It has no bytes but for two numbers.
pub struct Pass<F> {
    pub(crate) number: u32,
    pub(crate) made: u32,
    pub(crate) badge: Badge<View<F>>,
}

impl<F> Model for Pass<F> {
    ghost use Rattle.history_lock.specs.Passes.{PassView};

    ghost Value = { PassView F };

    ghost use Rattle.history_lock.specs.Passes.{held, IsAtRest};
    ghost use Rattle.history_lock.specs.Views.{view_of};

    ghost view = { λ p. held p.badge.table_id (view_of p.badge.views) };

    ghost invariant = { λ p. IsAtRest p.number p.made p.badge.views };
}

impl<F> Pass<F> {
    /// The number that its entries have as `who`.
    pub fn number(&self) -> u32
        ensures number { result ≡ self.now.number }
        ensures own { self.now.mine ≡ own_entries self.now.seen self.now.number }
    {
        self.number
    }
}
