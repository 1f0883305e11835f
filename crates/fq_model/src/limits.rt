//! The limits of all numbers. Those that virtual time is reckoned from stand beside its formulas.
ghost use Rattle.std.specs.Prelude.{◌≡◌};
ghost use Rattle.fq_model.specs.Limits.{most_workers, most_tenants, greatest_weight, most_pairs, most_entries, most_requests};

pub use vt_fixed::limits::{
    GREATEST_ACTIVE_WEIGHT, GREATEST_COST, GREATEST_LENGTH, GREATEST_MOMENT, GREATEST_WEIGHT,
    MOST_WORKERS,
};

/// The most tenants; the fewest is 1.
pub const MOST_TENANTS: u32 = 65536;

/// The most kinds of requests; the fewest is 1.
pub const MOST_KINDS: u32 = 64;

/// The most pairs of a tenant and a kind.
pub const MOST_PAIRS: u64 = 1048576;

/// The fewest entries that a history may be given room for: one request's Submit, Take and Done, and the Close.
pub const LEAST_ENTRIES: u32 = 4;

/// The most entries that a history may be given room for if it is kept whole.
pub const MOST_ENTRIES: u32 = 4194304;

/// The most entries that a history may be given room for if only its last entries are kept.
pub const MOST_LONG_ENTRIES: u32 = 4000000000;

/// The most requests that may be let wait at once; the fewest is 1.
pub const MOST_REQUESTS: u32 = 1048576;

/// The most workers of a text: a trace, a script or a journal.
pub const TEXT_WORKERS: u32 = 64;

/// The most tenants of a text.
pub const TEXT_TENANTS: u32 = 4096;

/// The greatest weight of a tenant of a text.
pub const TEXT_WEIGHT: u32 = 1000;

/// The most pairs of a tenant and a kind of a text.
pub const TEXT_PAIRS: u64 = 65536;

/// The most requests of a text that may be let wait at once.
pub const TEXT_REQUESTS: u32 = 262144;

/// The most requests of a trace; there may be none.
pub const MOST_ROWS: u32 = 262144;

/// The greatest moment of a trace, in microseconds.
pub const GREATEST_TRACE_MOMENT: u64 = 100000000000000;

/// The greatest number of a trace's submitter; the least is 0.
pub const GREATEST_SUBMITTER: u32 = 63;

/// The most slices that a request is worked on in.
pub const MOST_SLICES: u32 = 10000;

/// The greatest length of a lag report's slots, in microseconds; the least is 1.
pub const GREATEST_SLOT: u64 = 1000000000000000;

/// The most completed requests that a fluid reference reads: more than any history has that is kept whole.
pub const MOST_FLUID_ROWS: u32 = 2000000;

/// The greatest backlog of a tenant, in microseconds of work: the greatest cost times `MOST_FLUID_ROWS`.
pub const GREATEST_BACKLOG: u64 = 2000000000000000;

/// The most cells of a lag report: its slots times its tenants.
pub const MOST_CELLS: u64 = 4000000;

/// The most times that the status is read while a pool runs.
pub const MOST_STATUSES: u32 = 1000;

/// The greatest rate at which a trace is shaped, in units a millisecond for weight 1; the least is 1.
pub const GREATEST_RATE: u64 = 1000000;

/// The greatest burst to which a trace is shaped, in units; the least is 1.
pub const GREATEST_BURST: u64 = 1000000000;

/// More than virtual time reaches, in steps: by the clock the greatest moment, by the most workers, at active weight 1;
/// under `2dfq+` the greatest length for each entry of the longest history.
pub const GREATEST_VIRTUAL_TIME: i128 = 10000000000000000000000000;

/// More than a tenant's virtual charge reaches, in steps: the greatest length for each entry of the longest history.
pub const GREATEST_VIRTUAL_CHARGE: i128 = 10000000000000000000000000;

/// More than a tenant's start reaches, in steps.
pub const GREATEST_START: i128 = 20000000000000000000000000;

/// Which limits the numbers of a configuration keep.
#[derive(Clone, Copy, Debug, PartialEq, Eq)]
pub enum Limits {
    /// Those of the program's texts (traces, scripts, journals). The history is kept whole.
    Text,
    /// The widest. The history is kept whole.
    Whole,
    /// The widest. Only the last entries of the history are kept.
    Long,
}

impl Limits {
    /// The most workers; the fewest is 1.
    pub fn most_workers(self) -> u32
        ensures { result ≡ most_workers self }
    {
        match self {
            Limits::Text => TEXT_WORKERS,
            Limits::Whole | Limits::Long => MOST_WORKERS,
        }
    }

    /// The most tenants; the fewest is 1.
    pub fn most_tenants(self) -> u32
        ensures { result ≡ most_tenants self }
    {
        match self {
            Limits::Text => TEXT_TENANTS,
            Limits::Whole | Limits::Long => MOST_TENANTS,
        }
    }

    /// The greatest weight of a tenant; the least is 1.
    pub fn greatest_weight(self) -> u32
        ensures { result ≡ greatest_weight self }
    {
        match self {
            Limits::Text => TEXT_WEIGHT,
            Limits::Whole | Limits::Long => GREATEST_WEIGHT,
        }
    }

    /// The most pairs of a tenant and a kind.
    pub fn most_pairs(self) -> u64
        ensures { result ≡ most_pairs self }
    {
        match self {
            Limits::Text => TEXT_PAIRS,
            Limits::Whole | Limits::Long => MOST_PAIRS,
        }
    }

    /// The most entries that the history may be given room for; the fewest is `LEAST_ENTRIES`.
    pub fn most_entries(self) -> u32
        ensures { result ≡ most_entries self }
    {
        match self {
            Limits::Text | Limits::Whole => MOST_ENTRIES,
            Limits::Long => MOST_LONG_ENTRIES,
        }
    }

    /// The most requests that may be let wait at once; the fewest is 1.
    pub fn most_requests(self) -> u32
        ensures { result ≡ most_requests self }
    {
        match self {
            Limits::Text => TEXT_REQUESTS,
            Limits::Whole | Limits::Long => MOST_REQUESTS,
        }
    }
}
