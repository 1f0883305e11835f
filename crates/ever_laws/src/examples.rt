//! Worked histories that come to the bounds: their contracts state the values of the definitions, and their bodies are
//! empty. With two workers no request is longer than 4 units, and the last worker takes 2 units off a start at most.
//! With three no request is longer than 3, and that is 2 units too.
ghost use Rattle.std.specs.Prelude.{◌≡◌, ◌-ℤ◌, pos, Some};
ghost use Rattle.fq_model.specs.Ever.{longest_of_all, ever_bound, measured_ever_bound};
ghost use Rattle.fq_model.specs.History.{head};
ghost use Rattle.fq_model.specs.Pace.{pace};
ghost use Rattle.fq_model.specs.Gap.{start_difference};
ghost use Rattle.fq_model.specs.Rules.{IsLegal};
ghost use Rattle.worked_histories.specs.Examples.{units};
ghost use Rattle.ever_laws.specs.Words.{IsPacedWithin, time_now, most_of, least_of};
ghost use Rattle.ever_laws.specs.Laws.{all_and_part};
ghost use Rattle.ever_laws.specs.Examples.{pair_config, most_history, cap_history, lead_history, three_config, three_cap_history, three_lead_history, single_config, withdrawn_history, waited_history};

/// The most of a tenant, above virtual time. Both workers take a request of 1 of tenant 0, and the second one lifts
/// virtual time to 1. The first request turns out to cost 4, so that the third one starts at 5: worker 1 takes 2 off
/// and lifts virtual time to 3. Tenant 0 is then at 9, and the request of worker 0 may still turn out 3 longer: 12,
/// which is 9 above virtual time. The bound is 2 times 4 and a part of 2, and the unit that is missing is the length of
/// the request of worker 0 by its estimate.
pub fn most()
    ensures within { IsPacedWithin pair_config most_history (units 4) }
    ensures time { time_now pair_config most_history ≡ units 3 }
    ensures most { most_of (units 4) pair_config most_history 0 ≡ pos (units 12) }
    ensures bound { all_and_part pair_config (units 4) ≡ units 10 }
{}

/// The cap, above the least of a tenant that waits: the bound is met. Worker 0 takes a request of tenant 1 from 0 to 4.
/// Worker 1 takes three requests of tenant 2. Two of them cost 4 and 2, so that the last one starts at 6: it lifts
/// virtual time to 6 - 2, and the cap to 6 + 4. Tenant 1 then waits from 4 on, and would be at 0 if its running request
/// cost nothing.
pub fn cap()
    ensures within { IsPacedWithin pair_config cap_history (units 4) }
    ensures waits { head cap_history 1 ≡ Some 4 }
    ensures cap { (pace pair_config cap_history).reached ≡ units 10 }
    ensures least { least_of pair_config cap_history 1 ≡ pos (units 0) }
    ensures bound { all_and_part pair_config (units 4) ≡ units 10 }
{}

/// The lead. As before virtual time is 4 and the cap is 10. Tenant 0 comes, and starts at 4. Tenant 1 waits from 4 on,
/// but its running request costs 2, and it is back at 2: its head of 4 finishes at 6. Worker 1 takes a request of
/// tenant 0 that finishes at 5. Two workers over three weights then make 2 units in 3 microseconds, as tenant 2, which
/// has no request any more, starts at 10. So worker 0 takes one that starts at 5 and finishes at 6 too. At moment 9 the
/// time is 6 + 6 * 2/3: it has come to the cap, and tenant 0 starts there with one request more. Its two others turn
/// out to cost 4 in place of 1: it is at 16, and tenant 1 at 2. The bound is 4 times 4 and a part of 2, less a step;
/// requests of 1 take the 4 missing units away. (A lead that begins at 0 where both begin to wait stays below 3 times
/// 4.)
pub fn lead()
    ensures within { IsPacedWithin pair_config lead_history (units 4) }
    ensures waits { head lead_history 1 ≡ Some 6 }
    ensures lead { start_difference pair_config lead_history 0 1 ≡ pos (units 14) }
    ensures bound { ever_bound pair_config (units 4) ≡ pos (units 18) -ℤ pos 1 }
{}

/// The cap with three workers: the bound is met. Workers 0 and 1 take two requests of tenant 1, from 0 to 6, and worker
/// 1 takes 1 off and lifts virtual time to 2. There tenant 2 comes. Worker 2 takes three requests of it that cost 3
/// each: the last one starts at 8, and lifts virtual time to 8 - 2, and the cap to 8 + 3. Tenant 1 then waits from 6
/// on, and would be at 0 if its running requests cost nothing.
pub fn cap_of_three()
    ensures within { IsPacedWithin three_config three_cap_history (units 3) }
    ensures waits { head three_cap_history 1 ≡ Some 5 }
    ensures cap { (pace three_config three_cap_history).reached ≡ units 11 }
    ensures least { least_of three_config three_cap_history 1 ≡ pos (units 0) }
    ensures bound { all_and_part three_config (units 3) ≡ units 11 }
{}

/// The lead with three workers. A request of each tenant is taken from 0 to 3. That of tenant 2 costs 3, and its next
/// one 2, so that the third one starts at 5: it lifts virtual time to 5 - 2, and the cap to 5 + 3. Tenants 0 and 1 then
/// wait from 3 on; their running requests cost nothing, and both are back at 0. The head of tenant 1 finishes at 3, and
/// the three requests of 1 of tenant 0 at 1, 2 and 3: all workers take these. In 5 microseconds three workers over
/// three weights make 5 units, as tenant 2, which has no request any more, starts at 8: virtual time comes to the cap,
/// 8. There tenant 0 starts with one request more. The three others turn out to cost 3 in place of 1: it is at 14, and
/// tenant 1 at 0. The bound is 5 times 3 and a part of 2, less a step; the 3 units that are missing are the lengths at
/// which the three were taken. (A lead that begins at 0 where both begin to wait stays below 4 times 3.)
pub fn lead_of_three()
    ensures within { IsPacedWithin three_config three_lead_history (units 3) }
    ensures waits { head three_lead_history 1 ≡ Some 8 }
    ensures lead { start_difference three_config three_lead_history 0 1 ≡ pos (units 14) }
    ensures bound { ever_bound three_config (units 3) ≡ pos (units 17) -ℤ pos 1 }
{}

/// The bound by the greatest length in a history. A request of 9 is withdrawn before the Take: the heads just before it
/// are 1 long, and so is the request that is taken. With one worker the bound is 2 times 1, less a step. Where that
/// request is withdrawn after the Take it is a head there, and the bound is 2 times 9, less a step.
pub fn withdrawn()
    ensures legal { IsLegal single_config withdrawn_history }
    ensures longest { longest_of_all single_config withdrawn_history ≡ units 1 }
    ensures bound { measured_ever_bound single_config withdrawn_history ≡ Some (pos (units 2) -ℤ pos 1) }
    ensures legal_waited { IsLegal single_config waited_history }
    ensures longest_waited { longest_of_all single_config waited_history ≡ units 9 }
    ensures bound_waited { measured_ever_bound single_config waited_history ≡ Some (pos (units 18) -ℤ pos 1) }
{}
