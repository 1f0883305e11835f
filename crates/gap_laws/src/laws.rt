//! The laws, one function a law: its contract is the law, and its body is empty.
ghost use Rattle.gap_laws.specs.Laws.{ChargeRisesAtTakes, StartRisesAtTakes, RunStartIs, GapStaysBelow, LargestIsBounded, GapIsThere, LargestIsGreatest, BoundIsGreatest, LeadStaysBelow, WorstLeadStaysBelow, DifferenceStaysBelow, MeasuredIsBounded, GainStaysBelow, TakesAreFew};
ghost use Rattle.gap_laws.specs.Laws.{MeasuredAreCaps, MeasuredIsThere, MeasuredIsGreatest, LeadBoundIsGreatest, AccountsStayNear, TakesAreFewInRun};

/// Where every cost is as declared, a Take adds the length of the declared cost to the virtual charge of its tenant,
/// and nothing else changes a virtual charge: no Report and no Done.
pub fn charge_rises_at_takes()
    ensures { ChargeRisesAtTakes }
{}

/// So the start of a tenant that waits rises at the Takes of its own requests alone, by their declared lengths.
pub fn start_rises_at_takes()
    ensures { StartRisesAtTakes }
{}

/// The run of a shared prefix, at which both tenants wait, begins at a shared prefix whose next shorter prefix is not
/// shared, and all prefixes between the two are shared.
pub fn run_start_is()
    ensures { RunStartIs }
{}

/// The bound of the gap: in the manner of the bounds of Golestani (1994) and of Goyal, Vin and Cheng (1996), but of
/// starts and not of service. While two tenants wait, the start of one is above the start of the other by no more than
/// it was when both began to wait, or than the longest length of a request of either: under the staggered policies
/// twice that length. The two tenants need not differ, nor be tenants of the configuration.
pub fn gap_stays_below()
    ensures { GapStaysBelow }
{}

/// So the largest difference of a gap is at most its bound.
pub fn largest_is_bounded()
    ensures { LargestIsBounded }
{}

/// There is a gap exactly where both tenants wait at some prefix.
pub fn gap_is_there()
    ensures { GapIsThere }
{}

/// The largest difference of a gap is reached at a shared prefix, and passed at none.
pub fn largest_is_greatest()
    ensures { LargestIsGreatest }
{}

/// The bound of a gap is the greatest of the lengths in the bound and of the differences where runs of shared prefixes
/// begin.
pub fn bound_is_greatest()
    ensures { BoundIsGreatest }
{}

/// Where costs are not known: while two tenants wait, and whatever the running requests cost, one is ahead of the other
/// by no more than it was at any earlier prefix, or than one of its own Takes since leaves it ahead. Nothing else is
/// asked of the history than that it is legal: not which estimator, not how wrong it is, not which weights and workers.
pub fn lead_stays_below()
    ensures { LeadStaysBelow }
{}

/// So in the worst case, where no request is longer than `M` and some may turn out as long, or cost nothing: the lead
/// is at most the lead when both began to wait, or less than `M` for each worker and once more.
pub fn worst_lead_stays_below()
    ensures { WorstLeadStaysBelow }
{}

/// The bound of starts alone: one request of the greatest length for each worker, beyond one such request or the
/// difference that there was when both began to wait.
pub fn difference_stays_below()
    ensures { DifferenceStaysBelow }
{}

/// As measured on any legal history: the largest difference of a measured gap is at most its bound.
pub fn measured_is_bounded()
    ensures { MeasuredIsBounded }
{}

/// There is a measured gap exactly where both tenants wait at some prefix.
pub fn measured_is_there()
    ensures { MeasuredIsThere }
{}

/// The largest difference of a measured gap is reached at a shared prefix, and passed at none.
pub fn measured_is_greatest()
    ensures { MeasuredIsGreatest }
{}

/// The bound of a measured gap is the greater of the bound by its Takes and the greatest lead where both begin to wait.
pub fn lead_bound_is_greatest()
    ensures { LeadBoundIsGreatest }
{}

/// The gain of one tenant on another over a while in which both wait, in the manner of Golestani (1994), and by any
/// account of the two: charged, finished or measured otherwise, as long as a running request counts something from
/// nothing to the greatest length. It is at most twice one request of the greatest length more than there are workers,
/// unless the other had a greater lead when both began to wait.
pub fn gain_stays_below()
    ensures { GainStaysBelow }
{}

/// While a head waits, another tenant whose requests have a least length is taken at most as often as that length goes
/// into the lead that the waiting tenant had, with one request of the greatest length, and once more. Both premises are
/// needed: where requests cost nothing a tenant may be taken for ever, and a lead has no bound of its own.
pub fn takes_are_few()
    ensures { TakesAreFew }
{}

/// No taken request of a legal history is longer at a prefix than its greatest length there, or shorter than its
/// least: the measured bound needs both.
pub fn measured_are_caps()
    ensures { MeasuredAreCaps }
{}

/// By any account of the two, charged, finished or measured otherwise, one tenant is ahead of the other by no more than
/// the worst case.
pub fn accounts_stay_near()
    ensures { AccountsStayNear }
{}

/// While a head waits, the Takes of another tenant are bounded by the lead that the waiting tenant had when both began
/// to wait.
pub fn takes_are_few_in_run()
    ensures { TakesAreFewInRun }
{}
