//! Limits that come of the width of a number.

/// How many requests may be admitted: tickets are below this.
pub const MOST_TICKETS: u64 = 18446744073709551615;

/// The last generation of a slot, after which nobody joins it.
pub const LAST_GENERATION: u32 = 4294967295;
