//! Laws of charges, estimates, virtual time and tags.
ghost use Rattle.fq_laws.specs.AccountLaws.{ChargeSteps, FinalCharge, ChargeCoversUse, ChargeLimit, TenantSteps, TenantLimits, EstimateRange, GreatestRuns, TimeIsByClock, TimeSteps, RateIsOfActive, TimeIsNotAhead, TakesLift, TimeRises, TimeIsCapped, TimeLimit, IdleSteps, IdleLimit, BaseRises, TagCatchesUp, StartLimit, PaceLimit};

/// A Take charges its request the estimate, a Report raises the charge to the use, and a Done makes it the cost.
pub fn charge_steps()
    ensures { ChargeSteps }
{}

/// The charge of a request that is done is its measured cost.
pub fn final_charge()
    ensures { FinalCharge }
{}

/// A running request is charged its greatest reported use at least.
pub fn charge_covers_use()
    ensures { ChargeCoversUse }
{}

/// A request is never charged more than the greatest cost.
pub fn charge_limit()
    ensures { ChargeLimit }
{}

/// The change that each act makes to a tenant's open requests, its virtual charge and its net charge.
pub fn tenant_steps()
    ensures { TenantSteps }
{}

/// A tenant has no more open requests than were submitted, and is charged the greatest cost of each at most.
pub fn tenant_limits()
    ensures { TenantLimits }
{}

/// Each estimate is at least 1 and at most the greatest cost, whichever the estimator.
pub fn estimate_range()
    ensures { EstimateRange }
{}

/// The greatest decayed cost can be kept as one number for each tenant and kind.
pub fn greatest_runs()
    ensures { GreatestRuns }
{}

/// Under each policy but `2dfq+` virtual time is that of the clock, and so are the bases of tags.
pub fn time_is_by_clock()
    ensures { TimeIsByClock }
{}

/// Virtual time makes one advance from each entry to the next, but not past the cap of `2dfq+`.
pub fn time_steps()
    ensures { TimeSteps }
{}

/// Where every tenant is active, it goes on over the weight of the active tenants under `2dfq+` too.
pub fn rate_is_of_active()
    ensures { RateIsOfActive }
{}

/// And where some tenant is active, it is never ahead of what that weight would make of it.
pub fn time_is_not_ahead()
    ensures { TimeIsNotAhead }
{}

/// Under `2dfq+` a Take lifts virtual time to the eligible key of its request, and the cap to its finish.
pub fn takes_lift()
    ensures { TakesLift }
{}

/// Virtual time never falls.
pub fn time_rises()
    ensures { TimeRises }
{}

/// Under `2dfq+` it never passes the cap.
pub fn time_is_capped()
    ensures { TimeIsCapped }
{}

/// Under the other policies it is, in steps, at most 64 units for each microsecond.
pub fn time_limit()
    ensures { TimeLimit }
{}

/// The virtual time that passed while a tenant was not active stays while the tenant is active, and else moves along
/// with virtual time by the clock.
pub fn idle_steps()
    ensures { IdleSteps }
{}

/// It is at most virtual time by the clock.
pub fn idle_limit()
    ensures { IdleLimit }
{}

/// The base of a tenant's tag never falls.
pub fn base_rises()
    ensures { BaseRises }
{}

/// A tenant that submits with nothing waiting is not behind virtual time.
pub fn tag_catches_up()
    ensures { TagCatchesUp }
{}

/// Where a tenant starts fits 128 bits by far.
pub fn start_limit()
    ensures { StartLimit }
{}

/// So it does under `2dfq+`, and so does the cap.
pub fn pace_limit()
    ensures { PaceLimit }
{}
