//! What is asked of heads before they are looked at.

use crate::head::Head;

/// The first of heads in order, and the greatest and the least length of one, in steps. A head of this finish and this
/// greatest length is a bound for each of them. If there is none, the lengths are those of `Lengths::of_none`.
#[derive(Clone, Copy)]
pub struct Extent {
    pub first: Option<Head>,
    pub longest: i128,
    pub shortest: i128,
}
