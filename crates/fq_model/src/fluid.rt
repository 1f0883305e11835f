//! The completed requests and the changes of a history, which the fluid reference reads.

/// A request that is done. The moment and the cost are microseconds.
#[derive(Clone, Copy)]
pub struct FluidRow {
    pub tenant: u32,
    /// When it was submitted.
    pub submit: u64,
    /// Its measured cost.
    pub cost: u64,
}

/// The weight or the number of workers that a change sets.
#[derive(Clone, Copy)]
pub enum What {
    /// From here on the tenant has this weight.
    Weight { tenant: u32, weight: u32 },
    /// From here on there is this number of workers.
    Workers { count: u32 },
}

/// A change of a weight or of the number of workers, and its moment in microseconds.
#[derive(Clone, Copy)]
pub struct Change {
    pub moment: u64,
    pub what: What,
}
