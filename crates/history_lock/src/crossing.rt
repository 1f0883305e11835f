//! The types that may cross threads.

use crate::lock::HistoryLock;
use crate::machine::Machine;
use crate::pass::Pass;

/// Can be named for a type that may be sent to another thread, and for no other.
pub fn may_be_sent<T: Send>() {}

/// Can be named for a type that threads may share, and for no other.
pub fn may_be_shared<T: Sync>() {}

/// A lock may be sent to another thread, and threads may share it, where its machine may be sent.
pub fn lock_crosses_threads<M: Machine + Send>() {
    may_be_sent::<HistoryLock<M>>();
    may_be_shared::<HistoryLock<M>>();
}

/// A pass may be sent to another thread, whatever its frame.
pub fn pass_crosses_threads<F>() {
    may_be_sent::<Pass<F>>();
}
