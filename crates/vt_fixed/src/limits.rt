//! The greatest numbers that virtual time is reckoned from.

/// The greatest cost of a request, in microseconds: a thousand seconds.
pub const GREATEST_COST: u64 = 1000000000;

/// The greatest moment of an entry, in microseconds: some 31 years.
pub const GREATEST_MOMENT: u64 = 1000000000000000;

/// The greatest weight of a tenant; the least is 1.
pub const GREATEST_WEIGHT: u32 = 100000;

/// The most workers; the fewest is 1.
pub const MOST_WORKERS: u32 = 4096;

/// The greatest sum of the weights of the active tenants: each of 65,536 tenants at the greatest weight.
pub const GREATEST_ACTIVE_WEIGHT: u64 = 6553600000;

/// The greatest length, in steps: the greatest cost at weight 1.
pub const GREATEST_LENGTH: i128 = 1048576000000000;
