//! The types that may cross threads.

use crate::desk::DeskOf;
use crate::tokens::{Running, Submitter, Worker};
use history_lock::Machine;
use history_lock::crossing::{may_be_sent, may_be_shared};

/// A desk may be sent to another thread, and threads may share it, where its floor may be sent.
pub fn desk_crosses_threads<M: Machine + Send>() {
    may_be_sent::<DeskOf<M>>();
    may_be_shared::<DeskOf<M>>();
}

/// Tokens may be sent to another thread.
pub fn tokens_cross_threads() {
    may_be_sent::<Submitter>();
    may_be_sent::<Worker>();
    may_be_sent::<Running>();
}
