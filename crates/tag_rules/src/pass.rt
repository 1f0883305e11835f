//! The two passes of a choice.
ghost use Rattle.std.specs.Prelude.{◌↔◌, IsTrue};
ghost use Rattle.tag_rules.specs.Passes.{GoesIn, BeforeIn};

use crate::head_keys::Keys;
use crate::turn::{Turn, finishes_before};

/// A pass over the tenants' heads. The second is made where the first finds none.
#[derive(Clone, Copy, Debug, PartialEq, Eq)]
pub enum Pass {
    /// The eligible heads, by finish.
    Eligible,
    /// Every head, by eligible key.
    Fallback,
}

impl Pass {
    /// Whether the head of these keys goes in the pass.
    pub fn takes(self, turn: Turn, keys: Keys) -> bool
        ensures { IsTrue result ↔ GoesIn self turn keys }
    {
        match self {
            Pass::Eligible => turn.is_eligible(keys),
            Pass::Fallback => true,
        }
    }

    /// Whether the head of keys `a` is before that of `b` in the pass.
    pub fn is_before(self, turn: Turn, a: Keys, b: Keys) -> bool
        ensures { IsTrue result ↔ BeforeIn self turn a b }
    {
        match self {
            Pass::Eligible => finishes_before(a, b),
            Pass::Fallback => turn.eligible_before(a, b),
        }
    }
}
