//! How far a slot serves the backlogs of tenants.

/// The work that a tenant still wants, in microseconds, and its weight.
#[derive(Clone, Copy)]
pub struct Backlog {
    pub units: u64,
    /// 1 to 1,000.
    pub weight: u32,
}

/// How far all backlogs of a slot are served.
#[derive(Clone, Copy, PartialEq, Eq)]
pub enum Level {
    /// Each is served whole.
    All,
    /// Each is served up to its weight times this over 1,024, rounded down.
    At(u64),
}
