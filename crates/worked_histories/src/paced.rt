//! Worked histories under `2dfq+`, in which virtual time is lifted or capped, and the results of the same calls under
//! `2dfq`. In each of them tenant 0 is there alone at first, and tenant 1 comes later.
ghost use Rattle.std.specs.Prelude.{◌≡◌};
ghost use Rattle.fq_model.specs.declared.config.Policy.{Policy};
ghost use Rattle.fq_model.specs.declared.config.Policy.TheVariants.{TwoDfq, TwoDfqPlus};
ghost use Rattle.fq_model.specs.Limits.{InLimits};
ghost use Rattle.fq_model.specs.Pace.{virtual_time};
ghost use Rattle.fq_model.specs.Keys.{HasKeys, IsChoiceAt};
ghost use Rattle.worked_histories.specs.Examples.{units, keys};
ghost use Rattle.worked_histories.specs.Paced.{PaceIs, IsLegalUnderBoth, lift_config, lift_taken, lift_history, cap_config, cap_history, both_config, both_ended, both_taken, both_history, refunded_config, refunded_ended, refunded_history, changes_config, changes_taken, changes_history};

/// One lift. Worker 0 takes a request of tenant 0 from 0 to 4, and worker 1 the next one, from 4 to 8. Half its length
/// is taken off that start: it becomes eligible at 4 - 2, and the time is 0. So virtual time is lifted to 2, and the
/// cap is 8. Tenant 1 then starts at 2, and the request of 6 that worker 0 takes of it leaves it at 8. Until moment 4
/// two workers over two weights make 4 units: the time is 6. For worker 1 the head of tenant 0 is eligible from 8 - 2
/// on and finishes at 8 + 4, that of tenant 1 from 8 - 5/2 on, and finishes at 8 + 5. So tenant 0 is chosen.
///
/// Under `2dfq` the time is 4, and tenant 1 started at 0 and is at 6: its head is eligible from 6 - 5/2 on, that of
/// tenant 0 is not, and tenant 1 is chosen. So tenant 0 pays for a worker that nobody else wanted.
pub fn lift()
    ensures in_limits { (p : Policy) → InLimits (lift_config p) }
    ensures legal { IsLegalUnderBoth lift_config lift_history }
    ensures lifted { PaceIs (lift_config TwoDfqPlus) lift_taken 2 8 }
    ensures time { virtual_time (lift_config TwoDfqPlus) lift_history 4 ≡ units 6 }
    ensures other_keys { HasKeys (lift_config TwoDfqPlus) lift_history 4 1 (keys 8 5 4) }
    ensures choice { IsChoiceAt (lift_config TwoDfqPlus) lift_history 4 1 0 (keys 8 4 2) }
    ensures time_2dfq { virtual_time (lift_config TwoDfq) lift_history 4 ≡ units 4 }
    ensures choice_2dfq { IsChoiceAt (lift_config TwoDfq) lift_history 4 1 1 (keys 6 5 4) }
{}

/// One cap. The worker runs a request of tenant 0 for 10 microseconds, and its cost is 1. No request was taken that
/// finishes after 1, so the time is 1 at moment 10. There tenant 1 starts, and finishes at 1 + 2; tenant 0, which was
/// charged 1, finishes at 1 + 3.
///
/// Under `2dfq` the time is 10. Tenant 1 finishes at 10 + 2, and tenant 0 is chosen.
pub fn cap()
    ensures in_limits { (p : Policy) → InLimits (cap_config p) }
    ensures legal { IsLegalUnderBoth cap_config cap_history }
    ensures capped { PaceIs (cap_config TwoDfqPlus) cap_history 1 1 }
    ensures other_keys { HasKeys (cap_config TwoDfqPlus) cap_history 10 0 (keys 1 3 1) }
    ensures choice { IsChoiceAt (cap_config TwoDfqPlus) cap_history 10 0 1 (keys 1 2 2) }
    ensures time_2dfq { virtual_time (cap_config TwoDfq) cap_history 10 ≡ units 10 }
    ensures choice_2dfq { IsChoiceAt (cap_config TwoDfq) cap_history 10 0 0 (keys 1 3 1) }
{}

/// A cap and a lift at one moment. A request of tenant 0 was taken from 0 to 1, and cost 5. At moment 10 the time is
/// capped at 1, but the next request of tenant 0 starts at 5: as it is taken at that moment virtual time is lifted to
/// 5, and the cap becomes 5 + 3. Tenant 1 then starts at 5. At moment 20 one worker over two weights has made 5 units
/// more, and the time is capped at 8. Tenant 1 finishes at 5 + 2, and tenant 0, which was charged 8, at 8 + 3.
///
/// Under `2dfq` the time is 10 at moment 10, and 15 at moment 20. Tenant 1 finishes at 10 + 2, and tenant 0 is chosen.
pub fn cap_and_lift()
    ensures in_limits { (p : Policy) → InLimits (both_config p) }
    ensures legal { IsLegalUnderBoth both_config both_history }
    ensures capped { PaceIs (both_config TwoDfqPlus) both_ended 1 1 }
    ensures lifted { PaceIs (both_config TwoDfqPlus) both_taken 5 8 }
    ensures capped_again { PaceIs (both_config TwoDfqPlus) both_history 8 8 }
    ensures choice { IsChoiceAt (both_config TwoDfqPlus) both_history 20 0 1 (keys 5 2 3) }
    ensures time_2dfq { virtual_time (both_config TwoDfq) both_history 20 ≡ units 15 }
    ensures choice_2dfq { IsChoiceAt (both_config TwoDfq) both_history 20 0 0 (keys 8 3 2) }
{}

/// A refund that leaves the cap above. A request of tenant 0 is taken at an estimate of 10, and the cap is 10. It costs
/// 1, and the next one too: tenant 0 is charged 2, the cap stays, and virtual time goes on with the clock, to 9 at
/// moment 9. At moment 12 it is 10, the cap. There tenant 1 starts, and finishes at 10 + 1; tenant 0 finishes at 2 +
/// 10.
///
/// Under `2dfq` the time is 12. Tenant 1 finishes at 12 + 1, and tenant 0 is chosen.
pub fn refund_below_cap()
    ensures in_limits { (p : Policy) → InLimits (refunded_config p) }
    ensures legal { IsLegalUnderBoth refunded_config refunded_history }
    ensures below { PaceIs (refunded_config TwoDfqPlus) refunded_ended 9 10 }
    ensures capped { PaceIs (refunded_config TwoDfqPlus) refunded_history 10 10 }
    ensures other_keys { HasKeys (refunded_config TwoDfqPlus) refunded_history 12 0 (keys 2 10 2) }
    ensures choice { IsChoiceAt (refunded_config TwoDfqPlus) refunded_history 12 0 1 (keys 10 1 3) }
    ensures time_2dfq { virtual_time (refunded_config TwoDfq) refunded_history 12 ≡ units 12 }
    ensures choice_2dfq { IsChoiceAt (refunded_config TwoDfq) refunded_history 12 0 0 (keys 2 10 2) }
{}

/// Weights and workers that change between. The first request of tenant 0 is taken from 0 to 8. Then its weight is 2,
/// and 8 more take it from 8 to 12. Worker 1 of 2 takes them: eligible at 8 - 4/2, which lifts virtual time to 6, and
/// the cap is 12. Then there is one worker, and over the weight 2 it makes 7 units in 14 microseconds: 6 + 7 is above
/// the cap, and the time is 12. There tenant 1 starts, and finishes at 12 + 3; tenant 0, whose head is 4 / 2 long, at
/// 12 + 2.
///
/// Under `2dfq` the time is 7. Tenant 1 starts at 7, tenant 0 is not eligible, and tenant 1 is chosen.
pub fn changes_between()
    ensures in_limits { (p : Policy) → InLimits (changes_config p) }
    ensures legal { IsLegalUnderBoth changes_config changes_history }
    ensures lifted { PaceIs (changes_config TwoDfqPlus) changes_taken 6 12 }
    ensures capped { PaceIs (changes_config TwoDfqPlus) changes_history 12 12 }
    ensures other_keys { HasKeys (changes_config TwoDfqPlus) changes_history 14 1 (keys 12 3 3) }
    ensures choice { IsChoiceAt (changes_config TwoDfqPlus) changes_history 14 0 0 (keys 12 2 2) }
    ensures time_2dfq { virtual_time (changes_config TwoDfq) changes_history 14 ≡ units 7 }
    ensures choice_2dfq { IsChoiceAt (changes_config TwoDfq) changes_history 14 0 1 (keys 7 3 3) }
{}
