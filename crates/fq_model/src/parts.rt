//! The status of a history.

/// Numbers of one history.
#[derive(Clone, Copy)]
pub struct Status {
    /// How many entries it has.
    pub entries: u64,
    /// The moment of its last entry, or 0.
    pub moment: u64,
    /// Virtual time at that moment, in steps.
    pub vtime: i128,
    /// How many requests wait.
    pub waiting: u32,
    /// How many requests run.
    pub running: u32,
}
