//! The counters of a job that runs.
ghost use Rattle.std.specs.Prelude.{◌≡◌, ◌↔◌, IsTrue};
ghost use Rattle.gate_rules.specs.Counting.{IsAtMost, greater_of};

/// The work, items and bytes of a job so far. The units are those of the gate that counts; it may leave a part at 0.
#[derive(Clone, Copy, Debug, PartialEq, Eq)]
pub struct Counters {
    /// Work done, such as microseconds of a processor.
    pub work: u64,
    /// Things handled, such as rows read.
    pub items: u64,
    /// Bytes moved.
    pub bytes: u64,
}

/// Nothing used.
pub const NO_COUNTERS: Counters = Counters {
    work: 0,
    items: 0,
    bytes: 0,
};

impl Counters {
    /// Whether no part is greater than the other's. Of two counters neither need be at most the other.
    pub fn is_at_most(self, other: Counters) -> bool
        ensures { IsTrue result ↔ IsAtMost self other }
    {
        self.work <= other.work && self.items <= other.items && self.bytes <= other.bytes
    }

    /// The greater of each part.
    pub fn greater(self, other: Counters) -> Counters
        ensures { result ≡ greater_of self other }
    {
        Counters {
            work: self.work.max(other.work),
            items: self.items.max(other.items),
            bytes: self.bytes.max(other.bytes),
        }
    }
}
