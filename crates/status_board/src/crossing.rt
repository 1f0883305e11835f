//! The types that may cross threads.

use crate::board::Board;
use crate::reader::Reader;
use crate::writer::Writer;
use history_lock::crossing::{may_be_sent, may_be_shared};

/// A board may be sent to another thread, and threads may share it.
pub fn board_crosses_threads() {
    may_be_sent::<Board>();
    may_be_shared::<Board>();
}

/// Its writer and readers may be sent to another thread.
pub fn sides_cross_threads() {
    may_be_sent::<Writer>();
    may_be_sent::<Reader>();
}
