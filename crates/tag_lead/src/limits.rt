//! The limits of lengths and doubts, in steps.

use fq_model::limits::MOST_WORKERS;

/// The greatest length of a request: that of `fq_model::limits`, as an unsigned number.
pub const GREATEST_LENGTH: u128 = fq_model::limits::GREATEST_LENGTH as u128;

/// The greatest length of two heads, the most that a bound counts.
pub const GREATEST_PAIR: u128 = 2 * GREATEST_LENGTH;

/// More than the doubt about the request of one worker reaches: two numbers of 64 bits.
pub const GREATEST_PART: u128 = 2 * u64::MAX as u128;

/// More than the doubt about the requests of all workers reaches.
pub const GREATEST_DOUBT: u128 = MOST_WORKERS as u128 * GREATEST_PART;

/// The most requests that the bound of 2dfq+ counts whole: one for each worker, one for every second one, and one more.
pub const MOST_COUNTED: u32 = MOST_WORKERS + MOST_WORKERS / 2 + 1;

/// The greatest length of these requests.
pub const GREATEST_SUM: u128 = MOST_COUNTED as u128 * GREATEST_LENGTH;

/// More than the bound of 2dfq+ reaches: the greatest length of these requests, and less than that once more.
pub const GREATEST_BOUND: u128 = 2 * GREATEST_SUM;
