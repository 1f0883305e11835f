//! An item of a waiting list.

/// A request that waits.
#[derive(Debug, PartialEq, Eq, Drop)]
pub struct Item<J> {
    /// The number of the request.
    pub request: u32,
    /// The number of its kind.
    pub kind: u32,
    /// The cost that was declared for it, in microseconds.
    pub declared: u64,
    /// The job that the worker gets with it.
    pub job: J,
}
