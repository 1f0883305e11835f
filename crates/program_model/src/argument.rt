//! The value that the words of a command line give to an option.

use crate::name::Name;

/// The value that is given to an option.
#[derive(Clone, Copy, PartialEq, Eq)]
pub enum Argument {
    /// A number, or the place of a word among those that may stand there, counted from 0.
    Number(u64),
    /// The name of a tenant.
    Name(Name),
}
