//! The laws, one function a law: its contract is the law, and its body is empty.
ghost use Rattle.waiting_table.specs.Laws.{AddedIsFound, RemovedIsGone, ForwardedIsFound, WalkMeetsEach, FirstDueIsUnique};

/// A request that comes is found by its ticket from then on, and the others as before.
pub fn added_is_found()
    ensures { AddedIsFound }
{}

/// A request that is removed is found no more, and the others as before.
pub fn removed_is_gone()
    ensures { RemovedIsGone }
{}

/// A request that is forwarded is found with its number in the scheduler, and the others as before.
pub fn forwarded_is_found()
    ensures { ForwardedIsFound }
{}

/// Who asks for the first row from ticket 0 on, and then each time from the next number on, meets each row once, in the
/// order of tickets.
pub fn walk_meets_each()
    ensures { WalkMeetsEach }
{}

/// At most one deadline is the first.
pub fn first_due_is_unique()
    ensures { FirstDueIsUnique }
{}
