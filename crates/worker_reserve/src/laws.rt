//! The laws, one function a law: its contract is the law, and its body is empty.
ghost use Rattle.worker_reserve.specs.Credit.{SpendingIsBounded, IdlingIsBounded};
ghost use Rattle.worker_reserve.specs.Signed.{CreditIsEarnedAndSpent, CreditIsLowered, CreditIsRead};
ghost use Rattle.worker_reserve.specs.Bounds.{PausesAreTimely, DecliningIsBounded, ChangesAddNothing};

/// As time passes the credit comes back up to the cap, and then what was spent goes off: it may fall below 0.
pub fn credit_is_earned_and_spent()
    ensures { CreditIsEarnedAndSpent }
{}

/// Another number of workers lowers the credit to the new cap, where it is above that, and leaves it else.
pub fn credit_is_lowered()
    ensures { CreditIsLowered }
{}

/// The rule reads the credit, and a debt as no credit.
pub fn credit_is_read()
    ensures { CreditIsRead }
{}

/// All that workers spend by declining is at most what requests earned while they ran, and what is used at the end.
pub fn spending_is_bounded()
    ensures { SpendingIsBounded }
{}

/// Where workers that decline are asked again in time, all declining together lasts at most the idle part of all busy
/// time, the cap, and 1,001 microseconds of each worker.
pub fn idling_is_bounded()
    ensures { IdlingIsBounded }
{}

/// Workers that decline by the rule are asked again in time, where it is after the budget's pause at the latest.
pub fn pauses_are_timely()
    ensures { PausesAreTimely }
{}

/// Where workers decline by the rule alone, and each pause is the budget's, all declining together lasts at most the
/// idle part of all busy time, the cap, and 1,001 microseconds of each worker.
pub fn declining_is_bounded()
    ensures { DecliningIsBounded }
{}

/// A changed number of workers adds nothing to this, beside the 1,001 microseconds of each worker that came.
pub fn changes_add_nothing()
    ensures { ChangesAddNothing }
{}
