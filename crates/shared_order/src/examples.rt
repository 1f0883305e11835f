//! Heads whose eligibility is worked by hand, one function an example: its contract states the result, and its body
//! is empty. Numbers are steps.
ghost use Rattle.std.specs.Prelude.{◌≡◌, pos};
ghost use Rattle.fq_model.specs.declared.config.Policy.TheVariants.{Wfq, Wf2q, TwoDfq};
ghost use Rattle.fq_model.specs.Keys.{eligible_key, IsEligible};
ghost use Rattle.shared_order.specs.Reach.{key_by_finish, IsInReach};
ghost use Rattle.shared_order.specs.Examples.{second_of, head};

/// A head starts at 7, is 3 long and finishes at 10. The second of two workers may begin half of 3 earlier, rounded
/// down: at 6. That is 10 less three halves of 3, rounded once. At 6 twice the 4 steps that are left to the finish are
/// within three times 3, at 5 twice 5 are not.
pub fn rounded_once()
    ensures key { eligible_key (second_of TwoDfq 2 0) (head 7 3) ≡ pos 6 }
    ensures by_finish { key_by_finish (second_of TwoDfq 2 0) (pos 10) (pos 3) ≡ pos 6 }
    ensures at_six { IsInReach (second_of TwoDfq 2 6) (pos 10) (pos 3) }
    ensures at_five { ¬ IsInReach (second_of TwoDfq 2 5) (pos 10) (pos 3) }
{}

/// Without the stagger it is eligible from its start on, and under WFQ always.
pub fn not_staggered()
    ensures at_seven { IsInReach (second_of Wf2q 2 7) (pos 10) (pos 3) }
    ensures at_six { ¬ IsInReach (second_of Wf2q 2 6) (pos 10) (pos 3) }
    ensures always { IsInReach (second_of Wfq 2 0) (pos 10) (pos 3) }
{}

/// A bound may mislead. One head starts at 1 and finishes at 2, another starts at 1 and finishes at 10: at 0 neither is
/// eligible. The least finish is 2 and the greatest length 9, and a head of these would be.
pub fn bound_misleads()
    ensures short { ¬ IsEligible (second_of Wf2q 2 0) (head 1 1) }
    ensures long { ¬ IsEligible (second_of Wf2q 2 0) (head 1 9) }
    ensures bound { IsInReach (second_of Wf2q 2 0) (pos 2) (pos 9) }
{}
