//! The numbers of a tenant in a lag report.

/// A tenant's line of a lag report. The lags are those after each slot, in microseconds of work: below 0 where the
/// tenant was served more than its share, above 0 where it was served less.
#[derive(Clone, Copy)]
pub struct TenantLag {
    /// The weight that the configuration gives it.
    pub weight: u32,
    /// How many requests it submitted.
    pub requests: u32,
    /// Its net charge, in microseconds.
    pub charged: u64,
    /// Its fluid service after the last slot, in microseconds.
    pub fluid: u64,
    pub least: i64,
    pub p50: i64,
    pub p90: i64,
    pub p99: i64,
    pub greatest: i64,
}
