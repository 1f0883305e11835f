//! The greatest differences of two starts.
ghost use Rattle.std.specs.Prelude.{◌≡◌};
ghost use Rattle.tag_difference.specs.Found.{nothing, with_difference, at_least, gap_from};

use crate::gap::Gap;

/// The greatest differences at the prefixes in which two tenants wait, which are shared. In steps.
#[derive(Clone, Copy, Debug, PartialEq, Eq)]
pub struct Found {
    /// The greatest.
    pub largest: Option<i128>,
    /// The greatest of those at a prefix with which a run of shared ones begins.
    pub first: Option<i128>,
    /// Whether the last prefix is shared.
    pub shared: bool,
}

impl Found {
    /// No prefix yet.
    pub fn new() -> Found
        ensures { result ≡ nothing }
    {
        Found {
            largest: None,
            first: None,
            shared: false,
        }
    }

    /// With one prefix more, which has this difference if it is shared.
    pub fn with(&self, difference: Option<i128>) -> Found
        ensures { result ≡ with_difference self.now difference }
    {
        match difference {
            Some(d) => Found {
                largest: Some(at_least(d, self.largest)),
                first: if self.shared {
                    self.first
                } else {
                    Some(at_least(d, self.first))
                },
                shared: true,
            },
            None => Found {
                shared: false,
                ..*self
            },
        }
    }

    /// The gap, if some prefix was shared. Its bound is at least this.
    pub fn gap(&self, least: i128) -> Option<Gap>
        ensures { result ≡ gap_from self.now least }
    {
        let largest = self.largest?;
        let bound = at_least(least, self.first);
        Some(Gap { largest, bound })
    }
}

/// The greater of d and the number found, if there is one.
pub fn at_least(d: i128, found: Option<i128>) -> i128
    ensures { result ≡ at_least d found }
{
    match found {
        Some(x) => x.max(d),
        None => d,
    }
}
