//! The limits of tenants and of their kinds of requests: how many of each are forwarded and not ended, which requests
//! are held back, and which of these goes next.
//!
//! What a class may have in service at once is bounded, as by bulkheads (Nygard, Release It!, 2007), and what comes
//! above that waits in order, before the scheduler sees it.
#![tactic(auto)]

pub mod held;
pub mod laws;
pub mod limits;
#[cfg(test)]
mod tests;

pub use held::Held;
pub use limits::RequestLimits;
