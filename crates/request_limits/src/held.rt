//! A held request.

/// A request that is held back. No two have one place at once.
#[derive(Clone, Copy, Debug, PartialEq, Eq)]
pub struct Held {
    /// The number of requests that were admitted before it.
    pub ticket: u64,
    /// The number of its place among all requests that wait.
    pub place: u32,
}
