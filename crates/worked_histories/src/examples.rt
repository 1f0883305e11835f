//! The definitions computed on worked histories, one function an example: its contract states their values there, and
//! its body is empty. Each number can be found by hand, as the comments do. A unit of virtual time is 2^20 steps;
//! tenants, requests and workers count from 0.
ghost use Rattle.std.specs.Prelude.{◌/◌, ◌≡◌, ◌≢◌, ◌∷◌, pos, Some, None};
ghost use Rattle.fq_model.specs.declared.config.Policy.{Policy};
ghost use Rattle.fq_model.specs.declared.config.Policy.TheVariants.{Wfq, Wf2q, Msf2q, TwoDfq, TwoDfqPlus};
ghost use Rattle.fq_model.specs.Limits.{InLimits};
ghost use Rattle.fq_model.specs.Pace.{virtual_time};
ghost use Rattle.fq_model.specs.Charge.{charge, estimate_at};
ghost use Rattle.fq_model.specs.Keys.{tag, start, HeadKeys, finish, turn_at, eligible_key, HasKeys, IsChoiceAt};
ghost use Rattle.fq_model.specs.declared.event.Cause.TheVariants.{Tenant, Kind, Workers};
ghost use Rattle.fq_model.specs.declared.event.Call.TheVariants.{Take};
ghost use Rattle.fq_model.specs.declared.event.Reply.TheVariants.{Retired};
ghost use Rattle.fq_model.specs.declared.event.Act.TheVariants as Act;
ghost use Rattle.fq_model.specs.Rules.{IsLegal, Answers, submit_refusal, workers_refusal};
ghost use Rattle.worked_histories.specs.Examples.{entry, units, keys, NoneIsEligibleAt, weights_config, weights_history, workers_config, workers_history, stagger_config, long_ended, sixth_ended, fallback_config, fallback_history, fallback_taken, refund_config, refund_history, pause_config, pause_history, single_config, single_reported, single_ended, recent_config, recent_history, small_config, small_history, small_ended, small_reported, small_crowded};

/// The stagger example, where worker 1 is free. Two workers over two weights make one unit a microsecond. Tenant 0 was
/// charged 8, and tenant 1 six times 1. Worker 1 of 2 takes half a head's length off its start: tenant 0 is eligible at
/// 8 - 4, tenant 1 at 6 - 1/2, and the time is 5. So tenant 0 is chosen, though tenant 1 would start and finish sooner.
pub fn stagger()
    ensures in_limits { InLimits stagger_config }
    ensures legal { IsLegal stagger_config long_ended }
    ensures time { virtual_time stagger_config long_ended 5 ≡ units 5 }
    ensures long_keys { HasKeys stagger_config long_ended 5 0 (keys 8 8 1) }
    ensures short_keys { HasKeys stagger_config long_ended 5 1 (keys 6 1 8) }
    ensures long_eligible_at { eligible_key (turn_at stagger_config long_ended 5 1) (keys 8 8 1) ≡ pos (units 4) }
    ensures short_eligible_at { eligible_key (turn_at stagger_config long_ended 5 1) (keys 6 1 8) ≡ pos (units 11 / 2) }
    ensures choice { IsChoiceAt stagger_config long_ended 5 1 0 (keys 8 8 1) }
    ensures no_other { (k : HeadKeys) → ¬ IsChoiceAt stagger_config long_ended 5 1 1 k }
{}

/// The stagger example, where worker 0 is free. It takes nothing off a start: none is eligible at 5, and tenant 1, at
/// 6, comes before tenant 0, at 8. The head of tenant 1 is the older of its two waiting requests, 8 and 9.
pub fn stagger_of_first_worker()
    ensures legal { IsLegal stagger_config sixth_ended }
    ensures time { virtual_time stagger_config sixth_ended 5 ≡ units 5 }
    ensures long_keys { HasKeys stagger_config sixth_ended 5 0 (keys 8 8 1) }
    ensures short_keys { HasKeys stagger_config sixth_ended 5 1 (keys 6 1 8) }
    ensures long_eligible_at { eligible_key (turn_at stagger_config sixth_ended 5 0) (keys 8 8 1) ≡ pos (units 8) }
    ensures short_eligible_at { eligible_key (turn_at stagger_config sixth_ended 5 0) (keys 6 1 8) ≡ pos (units 6) }
    ensures none_eligible { NoneIsEligibleAt stagger_config sixth_ended 5 0 }
    ensures choice { IsChoiceAt stagger_config sixth_ended 5 0 1 (keys 6 1 8) }
    ensures no_other { (k : HeadKeys) → ¬ IsChoiceAt stagger_config sixth_ended 5 0 0 k }
{}

/// The fallback example. Tenant 0 was charged 2 and tenant 1 is charged 3, and the time is 1: none is eligible.
/// Tenant 0 comes first by its start, though it finishes at 2 + 10, and tenant 1 at 3 + 1. A take of tenant 1's
/// request is not legal.
pub fn fallback()
    ensures in_limits { InLimits fallback_config }
    ensures time { virtual_time fallback_config fallback_history 1 ≡ units 1 }
    ensures long_keys { HasKeys fallback_config fallback_history 1 0 (keys 2 10 1) }
    ensures long_finish { finish (keys 2 10 1) ≡ pos (units 12) }
    ensures short_keys { HasKeys fallback_config fallback_history 1 1 (keys 3 1 3) }
    ensures short_finish { finish (keys 3 1 3) ≡ pos (units 4) }
    ensures none_eligible { NoneIsEligibleAt fallback_config fallback_history 1 0 }
    ensures choice { IsChoiceAt fallback_config fallback_history 1 0 0 (keys 2 10 1) }
    ensures long_taken { IsLegal fallback_config (fallback_taken 1 10) }
    ensures short_taken { ¬ IsLegal fallback_config (fallback_taken 3 1) }
{}

/// The refund example. One worker over the weights 1 and 2 makes 1 unit in 3 microseconds, and 331 in 993. Tenant 0 has
/// the weight 1, and its request that was estimated at 990 cost 3: it is charged 3. Tenant 1 has the weight 2, and its
/// request cost 990: it is charged 495 units. The estimate of tenant 0's next request is the initial 990, decayed once.
pub fn refund()
    ensures in_limits { InLimits refund_config }
    ensures legal { IsLegal refund_config refund_history }
    ensures time { virtual_time refund_config refund_history 993 ≡ units 331 }
    ensures refunded_tag { tag refund_config refund_history 0 ≡ units 3 }
    ensures other_tag { tag refund_config refund_history 1 ≡ units 495 }
    ensures estimate { estimate_at refund_config refund_history 0 0 1 ≡ 980 }
    ensures choice { IsChoiceAt refund_config refund_history 993 0 0 (keys 3 980 1) }
{}

/// The pause example. One worker makes half a unit a microsecond while both tenants are active, and one while tenant 1
/// alone is: 1010 / 2 + 1000 units. Tenant 0 was charged 10. When it comes back its tag is raised to the time, but
/// under msf2q it starts at its charge and the 1000 units that it was away. Under 2dfq+ the time is 1000, which is the
/// greatest finish at which a request was taken. Tenant 1 finishes at 1000 + 300; tenant 0 finishes later, at 1505 +
/// 200, and under msf2q and 2dfq+ sooner, at 1010 + 200 and at 1000 + 200.
pub fn pause()
    ensures in_limits { (p : Policy) → InLimits (pause_config p) }
    ensures legal { (p : Policy) → IsLegal (pause_config p) pause_history }
    ensures time { (p : Policy) → p ≢ TwoDfqPlus → virtual_time (pause_config p) pause_history 2010 ≡ units 1505 }
    ensures time_2dfq_plus { virtual_time (pause_config TwoDfqPlus) pause_history 2010 ≡ units 1000 }
    ensures start_wfq { start (pause_config Wfq) pause_history 2010 0 ≡ units 1505 }
    ensures start_wf2q { start (pause_config Wf2q) pause_history 2010 0 ≡ units 1505 }
    ensures start_msf2q { start (pause_config Msf2q) pause_history 2010 0 ≡ units 1010 }
    ensures start_2dfq { start (pause_config TwoDfq) pause_history 2010 0 ≡ units 1505 }
    ensures start_2dfq_plus { start (pause_config TwoDfqPlus) pause_history 2010 0 ≡ units 1000 }
    ensures other_keys { (p : Policy) → HasKeys (pause_config p) pause_history 2010 1 (keys 1000 300 2) }
    ensures other_finish { finish (keys 1000 300 2) ≡ pos (units 1300) }
    ensures choice_wfq { IsChoiceAt (pause_config Wfq) pause_history 2010 0 1 (keys 1000 300 2) }
    ensures choice_wf2q { IsChoiceAt (pause_config Wf2q) pause_history 2010 0 1 (keys 1000 300 2) }
    ensures choice_msf2q { IsChoiceAt (pause_config Msf2q) pause_history 2010 0 0 (keys 1010 200 3) }
    ensures choice_2dfq { IsChoiceAt (pause_config TwoDfq) pause_history 2010 0 1 (keys 1000 300 2) }
    ensures choice_2dfq_plus { IsChoiceAt (pause_config TwoDfqPlus) pause_history 2010 0 0 (keys 1000 200 3) }
{}

/// The weights example. One worker over the weights 4 and 1 makes a unit in 5 microseconds, and 4 in 20. The request
/// of tenant 0 cost 8, and is charged by the weight 2 that its tenant had at the Take: 4 units, where the weight 4
/// would make 2. Its next head is measured by the weight now: 8 at the weight 4 is 2 units, so that it finishes at 6,
/// after tenant 1's at 5.
pub fn weights()
    ensures in_limits { InLimits weights_config }
    ensures legal { IsLegal weights_config weights_history }
    ensures time { virtual_time weights_config weights_history 20 ≡ units 4 }
    ensures tag { tag weights_config weights_history 0 ≡ units 4 }
    ensures keys { HasKeys weights_config weights_history 20 0 (keys 4 2 1) }
    ensures other_keys { HasKeys weights_config weights_history 20 1 (keys 0 5 2) }
    ensures choice { IsChoiceAt weights_config weights_history 20 0 1 (keys 0 5 2) }
{}

/// The workers example. From moment 0 on there is one worker, over one weight: 4 microseconds are 4 units. Worker 1
/// ends its request, is answered Retired though a request waits, and may not take; worker 0 may. There may be 2 workers
/// again, and not 3.
pub fn workers()
    ensures in_limits { InLimits workers_config }
    ensures legal { IsLegal workers_config workers_history }
    ensures time { virtual_time workers_config workers_history 4 ≡ units 4 }
    ensures retired { Answers workers_config workers_history (Take 11 4 1) (Retired 1) workers_history }
    ensures taken { IsLegal workers_config (entry 10 4 (Act.Take 0 1 4) ∷ workers_history) }
    ensures not_taken { ¬ IsLegal workers_config (entry 11 4 (Act.Take 1 1 4) ∷ workers_history) }
    ensures too_many { workers_refusal workers_config workers_history 3 ≡ Some (Workers 3) }
    ensures again { workers_refusal workers_config workers_history 2 ≡ None }
{}

/// One request, submitted, taken, reported and done, and the history then closed. It was taken at an estimate of 5,
/// and its greatest reported use is 6: it is charged 6 while it runs. It may end at the cost 6, but not at 5. Once it
/// is done its charge is its cost.
pub fn single_request()
    ensures in_limits { InLimits single_config }
    ensures reported { charge single_reported 0 ≡ 6 }
    ensures ended { charge (single_ended 9) 0 ≡ 9 }
    ensures cost_of_the_use { IsLegal single_config (single_ended 6) }
    ensures cost_below_the_use { ¬ IsLegal single_config (single_ended 5) }
{}

/// Recent costs. Nine requests of one tenant and kind cost 100, 2, 3, 4, 5, 6, 7, 8 and 9. Each was taken at the mean
/// of those before it, and the next is estimated at that of the last eight, which is 44 / 8, rounded down.
pub fn recent_costs()
    ensures in_limits { InLimits recent_config }
    ensures legal { IsLegal recent_config recent_history }
    ensures estimate { estimate_at recent_config recent_history 0 0 7 ≡ 5 }
{}

/// Little room. Four entries have room for the Submit, the Take and the Done of one request and for a Close, and for no
/// Report and no second request. A submission with two faults, here of tenant and of kind, is refused for the first.
pub fn little_room()
    ensures in_limits { InLimits small_config }
    ensures ended { IsLegal small_config small_ended }
    ensures no_report { ¬ IsLegal small_config small_reported }
    ensures no_second_request { ¬ IsLegal small_config small_crowded }
    ensures first_fault { submit_refusal small_config small_history 1 1 5 ≡ Some (Tenant 1) }
    ensures other_fault { submit_refusal small_config small_history 0 1 5 ≡ Some (Kind 1) }
{}
