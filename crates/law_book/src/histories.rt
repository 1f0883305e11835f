//! Laws of histories, calls and choices.
ghost use Rattle.fq_laws.specs.Laws.{EachOnce, WithdrawnIsNotTaken, NumbersFit, RunningLaw, PoolRange, RunnersKnown, WeightRange, HeadLaw, QueueLaw, ChoiceExists, OneChoice, EntriesLeaveOthers, KeysDoNotAge, OthersKeepKeys, AnswerExists, OneAnswer, AnswersKeepLegality, AnswersAddOne, RefusalsChangeNothing, RoomRemains, OutcomeExists, OneOutcome, OutcomesAreLegal};

/// In a legal history a request is submitted, taken and done once at most, and is taken or withdrawn once at most, and
/// so done or withdrawn once at most.
pub fn each_once()
    ensures { EachOnce }
{}

/// In a legal history a withdrawn request is never taken.
pub fn withdrawn_is_not_taken()
    ensures { WithdrawnIsNotTaken }
{}

/// In a legal history the number of each submitted request fits 32 bits.
pub fn numbers_fit()
    ensures { NumbersFit }
{}

/// The request of a worker's last Take, unless its Done follows, is the one request that it runs.
pub fn running_law()
    ensures { RunningLaw }
{}

/// In a legal history there are 1 to as many workers as at the opening.
pub fn pool_range()
    ensures { PoolRange }
{}

/// A running request runs on one of the workers that there were at the opening, be it retired or not.
pub fn runners_known()
    ensures { RunnersKnown }
{}

/// In a legal history each tenant has a weight in its limits.
pub fn weight_range()
    ensures { WeightRange }
{}

/// The head of a tenant is its least waiting request, if one waits.
pub fn head_law()
    ensures { HeadLaw }
{}

/// The queue of a tenant is its waiting requests, the oldest first, and its head is the first of them.
pub fn queue_law()
    ensures { QueueLaw }
{}

/// Where a request waits, a worker has a choice.
pub fn choice_exists()
    ensures { ChoiceExists }
{}

/// A worker has one choice at most.
pub fn one_choice()
    ensures { OneChoice }
{}

/// An entry leaves each tenant that it does not concern as it stood: its head, its charges, the base of its tag, its
/// open requests and its costs.
pub fn entries_leave_others()
    ensures { EntriesLeaveOthers }
{}

/// The keys of a tenant do not change while no entry comes, under any policy.
pub fn keys_do_not_age()
    ensures { KeysDoNotAge }
{}

/// An entry leaves the keys of each tenant that it does not concern.
pub fn others_keep_keys()
    ensures { OthersKeepKeys }
{}

/// Each call on a legal history has an answer.
pub fn answer_exists()
    ensures { AnswerExists }
{}

/// A call has one answer at most: one reply, and one history that is left.
pub fn one_answer()
    ensures { OneAnswer }
{}

/// An answer leaves a legal history legal.
pub fn answers_keep_legality()
    ensures { AnswersKeepLegality }
{}

/// An answer takes no entry from the history, and adds one at most, of the caller's number and the moment at which its
/// call takes effect.
pub fn answers_add_one()
    ensures { AnswersAddOne }
{}

/// A refused call leaves the history as it was.
pub fn refusals_change_nothing()
    ensures { RefusalsChangeNothing }
{}

/// A legal history always has room for the entries that have to follow: each waiting request can be taken and ended,
/// each running request can be ended, and the history can be closed.
pub fn room_remains()
    ensures { RoomRemains }
{}

/// Each list of calls has an outcome.
pub fn outcome_exists()
    ensures { OutcomeExists }
{}

/// A list of calls has one outcome at most.
pub fn one_outcome()
    ensures { OneOutcome }
{}

/// An outcome is a legal history.
pub fn outcomes_are_legal()
    ensures { OutcomesAreLegal }
{}
