//! The verdict about a journal.

use fq_model::event::{Entry, Reply};

/// Whether the entries of a journal are a legal history.
#[derive(Clone, Copy, Debug)]
pub enum Verdict {
    /// They are.
    Legal,
    /// They aren't: `entry` is the number of the first that isn't legal, counted from 1. The call whose entry it may be
    /// is answered by `reply` after the entries before it, and `wanted` is the entry that this call adds, or none.
    Bad {
        entry: u64,
        reply: Reply,
        wanted: Option<Entry>,
    },
}
