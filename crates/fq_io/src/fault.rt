//! The answer of a call that fails.

use std::io;
use thiserror::Error;

/// A read or a write failed. It gives no cause: the object counts it.
#[derive(Clone, Copy, Debug, PartialEq, Eq, Error)]
#[error("a read or a write failed")]
pub struct Failed;

impl From<io::Error> for Failed {
    fn from(_: io::Error) -> Failed {
        Failed
    }
}
