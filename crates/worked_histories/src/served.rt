//! Worked histories under `2dfq+` in which a tenant has no request any more, and its start is above virtual time: it
//! counts in the rate of virtual time until an entry finds its start at virtual time or below.
ghost use Rattle.std.specs.Prelude.{◌≡◌};
ghost use Rattle.fq_model.specs.declared.config.Policy.{Policy};
ghost use Rattle.fq_model.specs.declared.config.Policy.TheVariants.{TwoDfq, TwoDfqPlus};
ghost use Rattle.fq_model.specs.Limits.{InLimits};
ghost use Rattle.fq_model.specs.Pace.{virtual_time};
ghost use Rattle.fq_model.specs.Keys.{tag, IsChoiceAt};
ghost use Rattle.fq_model.specs.Rules.{IsLegal};
ghost use Rattle.worked_histories.specs.Examples.{units, keys};
ghost use Rattle.worked_histories.specs.Paced.{PaceIs, IsLegalUnderBoth};
ghost use Rattle.worked_histories.specs.Served.{GoesOnOver, served_config, left_above, back_at, come_to, back_later, weighted_config, two_left, one_passed, both_passed, ended_at_cost, changing_config, heavier, more_workers, heavier_passed, before_lift, after_lift};

/// A tenant that leaves and comes back. Until moment 2 one worker over two weights makes 1 unit. There the request of
/// tenant 0 is done, and it starts at 4, which is above 1: it still counts. So the time is 1 + 4/2 at moment 6, 1 + 6/2
/// at moment 8, and 1 + 8/2 at moment 10. Tenant 0 comes back at 6: its tag is its start, 4. At 8 the time has come to
/// that, and at 10 it raises the tag to 5.
///
/// Where there is an entry at 8, the start of tenant 0 is no longer above the time then, but at it. So it counts no
/// more, and the time at 10 is 4 + 2/1.
///
/// Under `2dfq` it counts no more from 2 on. The time is 1 + 4/1 at moment 6, which is the tag of tenant 0 that comes
/// there.
pub fn comes_back()
    ensures in_limits { (p : Policy) → InLimits (served_config p) }
    ensures legal { IsLegalUnderBoth served_config left_above }
    ensures left { PaceIs (served_config TwoDfqPlus) left_above 1 20 }
    ensures counts { GoesOnOver (served_config TwoDfqPlus) left_above 2 }
    ensures back_before { PaceIs (served_config TwoDfqPlus) (back_at 6) 3 20 }
    ensures tag_before { tag (served_config TwoDfqPlus) (back_at 6) 0 ≡ units 4 }
    ensures back_then { PaceIs (served_config TwoDfqPlus) (back_at 8) 4 20 }
    ensures tag_then { tag (served_config TwoDfqPlus) (back_at 8) 0 ≡ units 4 }
    ensures back_after { PaceIs (served_config TwoDfqPlus) (back_at 10) 5 20 }
    ensures tag_after { tag (served_config TwoDfqPlus) (back_at 10) 0 ≡ units 5 }
    ensures come_to { PaceIs (served_config TwoDfqPlus) come_to 4 20 }
    ensures counts_no_more { GoesOnOver (served_config TwoDfqPlus) come_to 1 }
    ensures legal_later { IsLegalUnderBoth served_config back_later }
    ensures back_later { PaceIs (served_config TwoDfqPlus) back_later 6 20 }
    ensures tag_later { tag (served_config TwoDfqPlus) back_later 0 ≡ units 6 }
    ensures time_2dfq { virtual_time (served_config TwoDfq) (back_at 6) 6 ≡ units 5 }
    ensures tag_2dfq { tag (served_config TwoDfq) (back_at 6) 0 ≡ units 5 }
{}

/// Two tenants that leave, of the weights 1 and 2, beside one of the weight 1 that stays. Until moment 4 one worker
/// over four weights makes 1 unit. There the request of tenant 1, which is 8/2 long, is done, and it starts at 4. It
/// still counts: the time is 2 at moment 8, where the request of tenant 0 is done, and it starts at 8. Both count until
/// an entry at 16, where the time is 2 + 8/4, the start of tenant 1. Then tenant 0 alone counts beside tenant 2, and
/// the time is 4 + 8/2 at 24, the start of tenant 0. From an entry there on tenant 2 alone counts, and the time is 8 +
/// 6/1 at 30.
///
/// Under `2dfq` the time is 1 + 4/2 at moment 8, and 3 + 22/1 at 30.
pub fn two_leave()
    ensures in_limits { (p : Policy) → InLimits (weighted_config p) }
    ensures legal { IsLegalUnderBoth weighted_config both_passed }
    ensures left { PaceIs (weighted_config TwoDfqPlus) two_left 2 40 }
    ensures count { GoesOnOver (weighted_config TwoDfqPlus) two_left 4 }
    ensures one_passed { PaceIs (weighted_config TwoDfqPlus) one_passed 4 40 }
    ensures one_counts { GoesOnOver (weighted_config TwoDfqPlus) one_passed 2 }
    ensures both_passed { PaceIs (weighted_config TwoDfqPlus) both_passed 8 40 }
    ensures none_counts { GoesOnOver (weighted_config TwoDfqPlus) both_passed 1 }
    ensures time { virtual_time (weighted_config TwoDfqPlus) both_passed 30 ≡ units 14 }
    ensures time_2dfq { virtual_time (weighted_config TwoDfq) both_passed 30 ≡ units 25 }
{}

/// A refund. The request of tenant 0 was taken from 0 to 10, and at moment 8 the time is 8/2. There it is done, and its
/// measured cost is the start of tenant 0. Where that is 3 or 4, the time has come to it: the tenant counts no more,
/// and the time is 4 + 2/1 at 10. Where it is 5 or 10, the tenant still counts, and the time is 4 + 2/2.
pub fn refund_below_time()
    ensures legal { IsLegal (served_config TwoDfqPlus) (ended_at_cost 3) }
    ensures below { PaceIs (served_config TwoDfqPlus) (ended_at_cost 3) 4 20 }
    ensures time_below { virtual_time (served_config TwoDfqPlus) (ended_at_cost 3) 10 ≡ units 6 }
    ensures time_at { virtual_time (served_config TwoDfqPlus) (ended_at_cost 4) 10 ≡ units 6 }
    ensures time_above { virtual_time (served_config TwoDfqPlus) (ended_at_cost 5) 10 ≡ units 5 }
    ensures time_whole { virtual_time (served_config TwoDfqPlus) (ended_at_cost 10) 10 ≡ units 5 }
{}

/// A weight and workers that change while a tenant without a request counts. At moment 8 the time is 8/2, and the
/// request of tenant 0 is done, which starts at 10 then. At 10 the time is 4 + 2/2, and tenant 0 gets the weight 3. Its
/// start stays, and one worker over 3 + 1 makes 1 unit until 14. There the pool gets two workers, which make 8 * 2/4
/// until 22: the time is 10, the start of tenant 0. From an entry there on two workers over the weight 1 make 4 units
/// until 24.
pub fn changes_while_counting()
    ensures legal { IsLegal (changing_config TwoDfqPlus) heavier_passed }
    ensures heavier { PaceIs (changing_config TwoDfqPlus) heavier 5 20 }
    ensures start_stays { tag (changing_config TwoDfqPlus) heavier 0 ≡ units 10 }
    ensures more_workers { PaceIs (changing_config TwoDfqPlus) more_workers 6 20 }
    ensures counts { GoesOnOver (changing_config TwoDfqPlus) more_workers 4 }
    ensures passed { PaceIs (changing_config TwoDfqPlus) heavier_passed 10 20 }
    ensures counts_no_more { GoesOnOver (changing_config TwoDfqPlus) heavier_passed 1 }
    ensures time { virtual_time (changing_config TwoDfqPlus) heavier_passed 24 ≡ units 14 }
{}

/// A lift that passes a start. At moment 2 the time is 1, and the request of tenant 0 is done, which starts at 4 then.
/// At moment 4 the time is 1 + 2/2, and tenant 0 still counts: the time would be 2 + 4/2 at 8. But at 4 the next
/// request of tenant 1 is taken, from 6 to 12, though it is not eligible. Virtual time is lifted to 6, past the start
/// of tenant 0, which counts no more. The time is 6 + 4/1 at 8.
pub fn lift_passes_start()
    ensures legal { IsLegal (served_config TwoDfqPlus) after_lift }
    ensures before { PaceIs (served_config TwoDfqPlus) before_lift 2 6 }
    ensures counts { GoesOnOver (served_config TwoDfqPlus) before_lift 2 }
    ensures time_before { virtual_time (served_config TwoDfqPlus) before_lift 8 ≡ units 4 }
    ensures choice { IsChoiceAt (served_config TwoDfqPlus) before_lift 4 0 1 (keys 6 6 2) }
    ensures lifted { PaceIs (served_config TwoDfqPlus) after_lift 6 12 }
    ensures counts_no_more { GoesOnOver (served_config TwoDfqPlus) after_lift 1 }
    ensures time { virtual_time (served_config TwoDfqPlus) after_lift 8 ≡ units 10 }
{}
