//! A running request.
ghost use Rattle.std.specs.Prelude.{◌≡◌};
ghost use Rattle.charge_book.specs.Rows.{row_charge};

/// A request that runs on a worker.
#[derive(Clone, Copy, Debug, PartialEq, Eq)]
pub struct RunRow {
    pub request: u32,
    pub tenant: u32,
    pub kind: u32,
    /// Its tenant's weight just before it was taken. It is charged at this, whatever the weight is later.
    pub weight: u32,
    /// Its estimate when it was taken, in microseconds.
    pub estimate: u64,
    /// The last use reported of it, in microseconds, or 0.
    pub last: u64,
}

impl RunRow {
    /// Its charge while it runs: the greater of its estimate and its last use.
    pub fn charge(&self) -> u64
        ensures { result ≡ row_charge self.now }
    {
        self.estimate.max(self.last)
    }
}
