//! Keys of leaves.
ghost use Rattle.std.specs.Prelude.{◌↔◌, IsTrue};
ghost use Rattle.winner_tree.specs.Order.{IsBefore};

/// A key: by `a`, where that is equal by `b`, where that is too by `c`.
#[derive(Clone, Copy, Debug, PartialEq, Eq, PartialOrd, Ord)]
pub struct Key {
    pub a: i128,
    pub b: i128,
    pub c: u32,
}

impl Key {
    /// Whether this key comes before another.
    #[inline]
    pub fn is_before(&self, other: &Key) -> bool
        ensures { IsTrue result ↔ IsBefore self.now other.now }
    {
        self < other
    }
}
