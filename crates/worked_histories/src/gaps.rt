//! The gap computed on worked histories, one function an example: its contract says that the history meets the premises
//! of the laws and what its gap is, and its body is empty. Each shows that one part of the bound cannot be left out.
//! Each number can be found by hand, as the comments do. A unit of virtual time is 2^20 steps; tenants, requests and
//! workers count from 0.
ghost use Rattle.std.specs.Prelude.{◌≡◌, ◌++◌, Some};
ghost use Rattle.fq_model.specs.Lead.{measured_gap};
ghost use Rattle.fq_model.specs.Limits.{InLimits};
ghost use Rattle.fq_model.specs.Rules.{IsLegal};
ghost use Rattle.fq_model.specs.Gap.{longest_length, tag_gap};
ghost use Rattle.worked_histories.specs.Examples.{units};
ghost use Rattle.gap_laws.specs.Words.{HasDeclaredCosts, takes_after};
ghost use Rattle.worked_histories.specs.Gaps.{gap_of, stagger_config, stagger_history, begun_config, begun_history, weights_config, weights_history};
ghost use Rattle.worked_histories.specs.Gaps.{doubt_config, doubt_history, free_begun, free_newer};

/// Under the staggered policy one longest length is not enough. At 4 tenant 0 starts at 8, and worker 1 of 2 takes half
/// of its 8 off: it is eligible at 4. Tenant 1 starts at 6 and is eligible at 6 - 1/2, so tenant 0 is chosen and goes
/// on to 16.
pub fn stagger()
    ensures premises { HasDeclaredCosts stagger_config stagger_history }
    ensures longest { longest_length stagger_config stagger_history 0 1 ≡ units 8 }
    ensures gap { tag_gap stagger_config stagger_history 0 1 ≡ Some (gap_of 10 16) }
{}

/// The difference where both begin to wait counts. Tenant 0 was charged 20 when tenant 1 submits at virtual time 0.
pub fn begun()
    ensures premises { HasDeclaredCosts begun_config begun_history }
    ensures longest { longest_length begun_config begun_history 0 1 ≡ units 10 }
    ensures gap { tag_gap begun_config begun_history 0 1 ≡ Some (gap_of 20 20) }
{}

/// Not only the lengths of the tenant that is ahead count, nor only those at the weights at the end. While tenant 1 has
/// the weight 1 its request of cost 10 finishes at 10, so tenant 0 is chosen with the finishes 4 and 8. Its own
/// requests are 4 long, and at the weight 2 that of tenant 1 is 5 long.
pub fn weights()
    ensures premises { HasDeclaredCosts weights_config weights_history }
    ensures longest { longest_length weights_config weights_history 0 1 ≡ units 10 }
    ensures gap { tag_gap weights_config weights_history 0 1 ≡ Some (gap_of 8 10) }
{}

/// The measured bound is met. Tenant 0 is charged 1 for each of three requests, and then its fourth is taken, of the
/// estimate 1, since it would finish at 4 as the head of tenant 1 would. It turns out to be 4 long, so that tenant 0
/// starts at 7 and tenant 1 still at 0. The bound is the greatest head, 4, and the doubt after that Take, 4 - 1. (No
/// request is longer than 4, so one worker lets a tenant get ahead by less than 2 times 4.)
pub fn doubt()
    ensures limits { InLimits doubt_config }
    ensures legal { IsLegal doubt_config doubt_history }
    ensures gap { measured_gap doubt_config doubt_history 0 1 ≡ Some (gap_of 7 7) }
{}

/// The lead where both begin to wait counts here too. Nothing is taken while both wait, and tenant 0 is ahead by 20.
pub fn begun_ahead()
    ensures { measured_gap begun_config begun_history 0 1 ≡ Some (gap_of 20 20) }
{}

/// Where requests cost nothing a head may wait for ever. Three times a request of tenant 0 is taken, and each time its
/// start is back at 0, so that it is never ahead by more than 1. The head of tenant 1, which is 2 long, bounds that.
pub fn free()
    ensures limits { InLimits doubt_config }
    ensures legal { IsLegal doubt_config (free_newer ++ free_begun) }
    ensures takes { takes_after 0 free_newer free_begun ≡ 3 }
    ensures gap { measured_gap doubt_config (free_newer ++ free_begun) 0 1 ≡ Some (gap_of 1 2) }
{}
