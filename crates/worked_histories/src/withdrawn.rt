//! Worked histories in which a request is withdrawn: which tenants then have a head and are active, the keys of the
//! next head, the numbers that stay, and the answer to the call. In each of them there are one worker and two tenants
//! of weight 1.
ghost use Rattle.std.specs.Prelude.{◌≡◌, true, false, [], ◌∷◌, Some, None};
ghost use Rattle.fq_model.specs.declared.config.Policy.{Policy};
ghost use Rattle.fq_model.specs.declared.config.Policy.TheVariants.{Msf2q, TwoDfq, TwoDfqPlus};
ghost use Rattle.fq_model.specs.declared.event.Act.TheVariants as Act;
ghost use Rattle.fq_model.specs.declared.event.Call.TheVariants.{Take, Withdraw};
ghost use Rattle.fq_model.specs.declared.event.Reply.TheVariants.{Withdrawn, Drained};
ghost use Rattle.fq_model.specs.Limits.{InLimits};
ghost use Rattle.fq_model.specs.History.{waiting, head, queue};
ghost use Rattle.fq_model.specs.Time.{is_active, virtual_idle_time};
ghost use Rattle.fq_model.specs.Pace.{time_for, virtual_time};
ghost use Rattle.fq_model.specs.Keys.{tag, start, HasKeys, IsChoiceAt};
ghost use Rattle.fq_model.specs.Rules.{IsLegal, Answers};
ghost use Rattle.worked_histories.specs.Examples.{entry, units, keys};
ghost use Rattle.worked_histories.specs.Paced.{PaceIs, IsLegalUnderBoth};
ghost use Rattle.worked_histories.specs.Served.{GoesOnOver};
ghost use Rattle.worked_histories.specs.Withdrawn.{withdraw_config, IsNotWithdrawn, both_wait, only_withdrawn, worker_free, back_again, other_withdrawn, other_ended, last_withdrawn, list_waits, one_withdrawn, closed_ended, closed_withdrawn, paced_waits, paced_withdrawn, paced_again};

/// The only request of a tenant. Until moment 4 one worker over two weights makes 2 units. There tenant 1 withdraws the
/// one request that it has: it has no head and is not active, and one worker over one weight makes 6 units until
/// moment 10. Its tag stays at 0 until its next request raises it to the time, 8. Tenant 1 then finishes at 8 + 3, and
/// tenant 0, which was charged 10, at 10 + 10.
pub fn only_request()
    ensures in_limits { (p : Policy) → InLimits (withdraw_config p) }
    ensures legal { (p : Policy) → IsLegal (withdraw_config p) back_again }
    ensures no_head { head only_withdrawn 1 ≡ None }
    ensures not_active { is_active only_withdrawn 1 ≡ false }
    ensures time_then { (p : Policy) → virtual_time (withdraw_config p) only_withdrawn 4 ≡ units 2 }
    ensures time { (p : Policy) → virtual_time (withdraw_config p) back_again 10 ≡ units 8 }
    ensures tag_stays { (p : Policy) → tag (withdraw_config p) only_withdrawn 1 ≡ units 0 }
    ensures tag_rises { (p : Policy) → tag (withdraw_config p) back_again 1 ≡ units 8 }
    ensures other_keys { (p : Policy) → HasKeys (withdraw_config p) back_again 10 0 (keys 10 10 1) }
    ensures choice { IsChoiceAt (withdraw_config TwoDfq) back_again 10 0 1 (keys 8 3 3) }
{}

/// The answer to the call there. Request 2 waits, and its label is 3: the reply is that label, and the history is one
/// entry longer. Then it waits no more, and is refused, as request 0 is, which runs, and 3, which was never submitted.
/// Nor may request 2 be taken then, when the worker is free.
pub fn answers()
    ensures withdrawn { Answers (withdraw_config TwoDfq) both_wait (Withdraw 1 4 2) (Withdrawn 3) only_withdrawn }
    ensures not_again { IsNotWithdrawn only_withdrawn 2 }
    ensures running { IsNotWithdrawn both_wait 0 }
    ensures unknown { IsNotWithdrawn both_wait 3 }
    ensures not_taken { ¬ IsLegal (withdraw_config TwoDfq) (entry 10 10 (Act.Take 0 2 4) ∷ worker_free) }
{}

/// A request of a tenant that runs another one. At moment 4 tenant 0 withdraws its waiting request: it has no head, but
/// is active until its other request ends at moment 10. Up to there one worker over two weights makes 5 units, and 4
/// more over the weight of tenant 1 until moment 14. Under `2dfq+` tenant 0 still counts, as it was charged 10 and so
/// starts above the time, and one worker over two weights makes 2 units more.
pub fn running_tenant()
    ensures legal { (p : Policy) → IsLegal (withdraw_config p) other_ended }
    ensures no_head { head other_withdrawn 0 ≡ None }
    ensures active { is_active other_withdrawn 0 ≡ true }
    ensures not_active { is_active other_ended 0 ≡ false }
    ensures time_then { (p : Policy) → virtual_time (withdraw_config p) other_withdrawn 10 ≡ units 5 }
    ensures time { (p : Policy) → virtual_time (withdraw_config p) other_ended 14 ≡ units (time_for p 9 7) }
{}

/// The last request of a tenant that was charged. The request that runs ends at moment 10, and at moment 14 tenant 0
/// withdraws the one that waits. Up to there one worker over two weights makes 7 units, and 4 more over the weight of
/// tenant 1 until moment 18. Under `2dfq+` tenant 0 still counts, as it starts at 10, and one worker over two weights
/// makes 2 units more. In `only_request` tenant 1 starts at 0, and counts no more under any policy.
pub fn last_request()
    ensures legal { IsLegal (withdraw_config TwoDfqPlus) last_withdrawn }
    ensures not_active { is_active last_withdrawn 0 ≡ false }
    ensures stays { PaceIs (withdraw_config TwoDfqPlus) last_withdrawn 7 10 }
    ensures counts { GoesOnOver (withdraw_config TwoDfqPlus) last_withdrawn 2 }
    ensures counts_no_more { GoesOnOver (withdraw_config TwoDfqPlus) only_withdrawn 1 }
    ensures time { (p : Policy) → virtual_time (withdraw_config p) last_withdrawn 18 ≡ units (time_for p 11 9) }
{}

/// Idle time under `msf2q`. Tenant 1 has nothing open from its Withdraw at moment 4 on, and 6 units pass until moment
/// 10: there it starts at 6, while under `2dfq` it starts at its tag. Tenant 0, which runs a request, is idle from the
/// Done at moment 10 on, and not from its Withdraw on: for the 4 units until moment 14.
pub fn idle_time()
    ensures none { virtual_idle_time (withdraw_config Msf2q) only_withdrawn 4 1 ≡ 0 }
    ensures passed { virtual_idle_time (withdraw_config Msf2q) back_again 10 1 ≡ units 6 }
    ensures start_msf2q { start (withdraw_config Msf2q) back_again 10 1 ≡ units 6 }
    ensures start_2dfq { start (withdraw_config TwoDfq) back_again 10 1 ≡ units 8 }
    ensures choice { IsChoiceAt (withdraw_config Msf2q) back_again 10 0 1 (keys 6 3 3) }
    ensures none_of_running { virtual_idle_time (withdraw_config Msf2q) other_withdrawn 10 0 ≡ 0 }
    ensures passed_since_done { virtual_idle_time (withdraw_config Msf2q) other_ended 14 0 ≡ units 4 }
{}

/// The head of a list. One worker over two weights makes 5 units until moment 10. Tenant 0 was charged 5, and its head
/// finishes at 5 + 10, after that of tenant 1 at 0 + 9. The head is withdrawn: tenant 0 starts where it did, and the
/// next one of its list, which is 3 long, finishes at 5 + 3, before that of tenant 1.
pub fn head_of_list()
    ensures legal { (p : Policy) → IsLegal (withdraw_config p) (one_withdrawn 1) }
    ensures time { (p : Policy) → virtual_time (withdraw_config p) (one_withdrawn 1) 10 ≡ units 5 }
    ensures keys_before { (p : Policy) → HasKeys (withdraw_config p) list_waits 10 0 (keys 5 10 1) }
    ensures choice_before { (p : Policy) → IsChoiceAt (withdraw_config p) list_waits 10 0 1 (keys 0 9 4) }
    ensures list { queue (one_withdrawn 1) 0 ≡ 2 ∷ 3 ∷ [] }
    ensures choice { (p : Policy) → IsChoiceAt (withdraw_config p) (one_withdrawn 1) 10 0 0 (keys 5 3 2) }
{}

/// One in the middle of a list, in its place: the head and its keys stay, and so does the choice. So do they where the
/// last one is withdrawn.
pub fn middle_of_list()
    ensures legal { (p : Policy) → IsLegal (withdraw_config p) (one_withdrawn 2) }
    ensures list { queue (one_withdrawn 2) 0 ≡ 1 ∷ 3 ∷ [] }
    ensures keys { (p : Policy) → HasKeys (withdraw_config p) (one_withdrawn 2) 10 0 (keys 5 10 1) }
    ensures choice { (p : Policy) → IsChoiceAt (withdraw_config p) (one_withdrawn 2) 10 0 1 (keys 0 9 4) }
    ensures list_less_last { queue (one_withdrawn 3) 0 ≡ 1 ∷ 2 ∷ [] }
    ensures keys_less_last { (p : Policy) → HasKeys (withdraw_config p) (one_withdrawn 3) 10 0 (keys 5 10 1) }
{}

/// After Close. Request 1 waits still when request 0 has ended. It is withdrawn, its label is 2, and a take is then
/// answered Drained.
pub fn after_close()
    ensures legal { IsLegal (withdraw_config TwoDfq) closed_withdrawn }
    ensures one_waits { waiting closed_ended ≡ 1 }
    ensures withdrawn { Answers (withdraw_config TwoDfq) closed_ended (Withdraw 0 6 1) (Withdrawn 2) closed_withdrawn }
    ensures none_waits { waiting closed_withdrawn ≡ 0 }
    ensures drained { Answers (withdraw_config TwoDfq) closed_withdrawn (Take 10 6 0) Drained closed_withdrawn }
{}

/// Under `2dfq+`. A request of tenant 0 is taken from 0 to 4: the cap is 4. Until moment 6 one worker over two weights
/// makes 3 units. There tenant 1 withdraws its request, and neither the time nor the cap changes at that moment. Until
/// moment 10 one worker over one weight makes 4 units more, and the time is capped at 4. The next request of tenant 1
/// raises its tag to that, and finishes at 4 + 9; tenant 0, which was charged 4, finishes at 4 + 8.
///
/// Under `2dfq` the time is 3 + 4 there, and so is the tag of tenant 1.
pub fn under_2dfq_plus()
    ensures legal { IsLegalUnderBoth withdraw_config paced_again }
    ensures time_before { virtual_time (withdraw_config TwoDfqPlus) paced_waits 6 ≡ units 3 }
    ensures cap_before { PaceIs (withdraw_config TwoDfqPlus) paced_waits 0 4 }
    ensures stays { PaceIs (withdraw_config TwoDfqPlus) paced_withdrawn 3 4 }
    ensures tag_stays { tag (withdraw_config TwoDfqPlus) paced_withdrawn 1 ≡ units 0 }
    ensures capped { PaceIs (withdraw_config TwoDfqPlus) paced_again 4 4 }
    ensures tag_rises { tag (withdraw_config TwoDfqPlus) paced_again 1 ≡ units 4 }
    ensures other_keys { HasKeys (withdraw_config TwoDfqPlus) paced_again 10 1 (keys 4 9 3) }
    ensures choice { IsChoiceAt (withdraw_config TwoDfqPlus) paced_again 10 0 0 (keys 4 8 1) }
    ensures time_2dfq { virtual_time (withdraw_config TwoDfq) paced_again 10 ≡ units 7 }
    ensures tag_2dfq { tag (withdraw_config TwoDfq) paced_again 1 ≡ units 7 }
{}
