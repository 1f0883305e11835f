//! The calls to a service.

/// A call to a service. `moment` is the caller's clock, in microseconds since the opening, and may be any number: one
/// before the last counts as the last, one above 10^15 as 10^15. Costs are in microseconds.
#[derive(Clone, Copy, PartialEq, Eq)]
pub enum ServiceCall {
    /// A request comes, of the tenant that has this slot in this generation. `declared` is the cost that its submitter
    /// names, 1 to 10^9; after `deadline`, a moment, it is not granted; `label` is any number of the submitter's own.
    Submit {
        moment: u64,
        slot: u32,
        generation: u32,
        kind: u32,
        declared: u64,
        deadline: Option<u64>,
        label: u64,
    },
    /// The request with this ticket is taken back, if it still waits.
    Cancel {
        moment: u64,
        ticket: u64,
    },
    /// What is to be done next?
    Next {
        moment: u64,
    },
    /// The request that this worker runs has used this much so far. 0 says nothing.
    Used {
        moment: u64,
        worker: u32,
        cost: u64,
    },
    /// The request that this worker runs has ended, and this is its measured cost.
    Finish {
        moment: u64,
        worker: u32,
        cost: u64,
    },
    /// A new tenant wants a slot, at this weight.
    Join {
        moment: u64,
        weight: u32,
    },
    /// The tenant of this slot is to have this weight from now on.
    Weight {
        moment: u64,
        slot: u32,
        weight: u32,
    },
    /// At most this many requests of this slot's tenant are to be forwarded and not ended from now on; 0 is no limit.
    Limit {
        moment: u64,
        slot: u32,
        most: u32,
    },
    /// There is to be this number of workers from now on: those with lower numbers.
    Workers {
        moment: u64,
        count: u32,
    },
    /// No more requests will come.
    Close {
        moment: u64,
    },
}
