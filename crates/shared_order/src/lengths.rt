//! The greatest and the least length of heads.
ghost use Rattle.std.specs.Prelude.{◌≡◌, ◌≢◌, ◌⊎◌, [], true, false};
ghost use Rattle.shared_order.specs.Heads.{lengths_of, with_length, joined_lengths};

use fq_model::limits::GREATEST_LENGTH;

/// The greatest length of a head and the least, in steps. If there is no head, they are 0 and `GREATEST_LENGTH`.
#[derive(Clone, Copy, Debug, PartialEq, Eq)]
pub struct Lengths {
    pub longest: i128,
    pub shortest: i128,
}

impl Lengths {
    /// Those of no head.
    #[inline]
    pub fn of_none() -> Lengths
        ensures { result ≡ lengths_of [] }
    {
        Lengths {
            longest: 0,
            shortest: GREATEST_LENGTH,
        }
    }

    /// Those of the same heads and of one more, which has this length.
    #[inline]
    pub fn with(self, len: i128) -> Lengths
        ensures { result ≡ with_length self len }
    {
        Lengths {
            longest: self.longest.max(len),
            shortest: self.shortest.min(len),
        }
    }

    /// Those of the same heads and of others.
    #[inline]
    pub fn join(self, other: Lengths) -> Lengths
        ensures { result ≡ joined_lengths self other }
    {
        Lengths {
            longest: self.longest.max(other.longest),
            shortest: self.shortest.min(other.shortest),
        }
    }

    /// Whether this is one of the two, so that a head which leaves may change them.
    #[inline]
    pub fn has(self, len: i128) -> bool
        ensures one { result ≡ true → (self.longest ≡ len) ⊎ (self.shortest ≡ len) }
        ensures none { result ≡ false → (self.longest ≢ len) × (self.shortest ≢ len) }
    {
        self.longest == len || self.shortest == len
    }
}
