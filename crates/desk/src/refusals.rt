//! Why the desk refuses.
ghost use Rattle.std.specs.Prelude.{◌≡◌};
ghost use Rattle.desk.specs.Replies.{live_cause, done_cause, IsLive, IsEnding};

use crate::desk::MOST_SUBMITTERS;
use fq_model::event::Cause;
use fq_model::limits::GREATEST_COST;

/// Why a desk is not opened.
#[derive(Clone, Copy, Debug, thiserror::Error)]
pub enum OpenFault {
    /// The number of submitters, which may be 1 to `MOST_SUBMITTERS`.
    #[error("{0} submitters, and there may be 1 to {MOST_SUBMITTERS}")]
    Submitters(u32),
    #[error("out of memory")]
    NoMemory,
}

/// Why a report is refused. Uses are microseconds.
#[derive(Clone, Copy, Debug, PartialEq, Eq, thiserror::Error)]
pub enum LiveRefusal {
    /// A use above the greatest cost.
    #[error("a use of {0} microseconds, and it may be up to {GREATEST_COST}")]
    Cost(u64),
    /// A use below the greatest one reported so far.
    #[error("a use of {given} microseconds, after a use of {last} was reported")]
    Falling { last: u64, given: u64 },
    /// Of this number of entries, those that are left are needed for the requests that were submitted.
    #[error("the history may have {0} entries, and lacks room for a report")]
    Full(u32),
}

/// Why a done is refused. Costs are microseconds.
#[derive(Clone, Copy, Debug, PartialEq, Eq, thiserror::Error)]
pub enum DoneRefusal {
    /// A cost above the greatest one.
    #[error("a cost of {0} microseconds, and it may be up to {GREATEST_COST}")]
    Cost(u64),
    /// A cost below the greatest use reported.
    #[error("a cost of {given} microseconds, after a use of {last} was reported")]
    Falling { last: u64, given: u64 },
}

pub(crate) fn done_refusal(cause: Cause) -> DoneRefusal
    requires { IsEnding cause }
    ensures { done_cause result ≡ cause }
{
    match cause {
        Cause::Cost(cost) => DoneRefusal::Cost(cost),
        Cause::Falling { last, given } => DoneRefusal::Falling { last, given },
        _ => unreachable!(),
    }
}

// A report is refused as a done is, or for want of room.
pub(crate) fn live_refusal(cause: Cause) -> LiveRefusal
    requires { IsLive cause }
    ensures { live_cause result ≡ cause }
{
    if let Cause::Full(entries) = cause {
        return LiveRefusal::Full(entries);
    }
    match done_refusal(cause) {
        DoneRefusal::Cost(used) => LiveRefusal::Cost(used),
        DoneRefusal::Falling { last, given } => LiveRefusal::Falling { last, given },
    }
}
