//! The gap of two tenants.

/// How far the start of one tenant was above that of another, in steps of virtual time.
#[derive(Clone, Copy, Debug, PartialEq, Eq)]
pub struct Gap {
    /// The greatest difference of their starts at a prefix in which both wait.
    pub largest: i128,
    /// The bound of each such difference: the greater of two numbers. By `tag_gap`, where costs are as declared: the
    /// greatest difference at the first prefix of a run of such, and the longest length of a request of the two, or
    /// twice that under 2dfq and 2dfq+. Where costs are not as declared, the doubt counts too (`tag_lead`).
    pub bound: i128,
}
