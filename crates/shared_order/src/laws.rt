//! Eligibility by finish and length, one function a law: its contract is the law, and its body is empty.
ghost use Rattle.shared_order.specs.Laws.{KeyIsFinishLess, KeyIsByFinish, EligibleIsInReach, KeyIsBounded, ReachIsBounded, ProductsFit};

/// Where a head becomes eligible lies before its finish by its length and its stagger: where it starts is not asked.
pub fn key_is_finish_less()
    ensures { KeyIsFinishLess }
{}

/// Under 2DFQ the two are one multiple of the length, (n + i) / n for worker i of n, rounded down once.
pub fn key_is_by_finish()
    ensures { KeyIsByFinish }
{}

/// So whether a head is eligible is a comparison of two products, without a division: exactly, whatever was rounded.
pub fn eligible_is_in_reach()
    ensures { EligibleIsInReach }
{}

/// The eligible key does not fall as the finish rises, and does not rise with the length. So of heads of which none
/// finishes before F and none is longer than L, none has a key below that of F and L.
pub fn key_is_bounded()
    ensures { KeyIsBounded }
{}

/// And where F and L together are not eligible, none of these heads is.
pub fn reach_is_bounded()
    ensures { ReachIsBounded }
{}

/// No product of such a comparison leaves the range of 128 bits, where virtual time is 0 at least and the head does not
/// finish before it.
pub fn products_fit()
    ensures { ProductsFit }
{}
