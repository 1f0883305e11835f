//! The course of a request.

use fluid_reference::owned::Owned;

/// When a request came, was taken and was done, in microseconds. One that is withdrawn is never taken or done.
#[derive(Clone, Copy)]
pub struct Course {
    /// The number of its tenant.
    pub tenant: u32,
    /// When it was submitted.
    pub submit: u64,
    /// When it was taken, or 0 where it is not taken.
    pub taken: u64,
    /// When it was done, or 0 where it is not done.
    pub ended: u64,
    /// Its measured cost, or 0 where it is not done.
    pub cost: u64,
    /// Whether it is done or withdrawn.
    pub is_ended: bool,
}

impl Owned for Course {
    ghost owner = { λ c. c.tenant };

    fn owner(&self) -> u32 {
        self.tenant
    }
}
