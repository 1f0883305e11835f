//! The versions of scripts and journals.

/// Which lines a script or a journal may have below its head. Its first line says it.
#[derive(Clone, Copy)]
pub enum Version {
    /// Weights, and the number of workers, are those of the head throughout.
    First,
    /// They may change.
    Second,
    /// They may change, and waiting requests may be withdrawn.
    Third,
}
