//! Why a use or a cost is refused.
ghost use Rattle.std.specs.Prelude.{◌≡◌};
ghost use Rattle.charge_book.specs.Refusal.{cause_of};

use fq_model::event::Cause;
use fq_model::limits::GREATEST_COST;
use std::error::Error;
use std::fmt;

/// The first reason, in the order of these variants, for which a use or a cost is refused.
#[derive(Clone, Copy, Debug, PartialEq, Eq)]
pub enum BookRefusal {
    /// Nothing runs on the worker.
    NotRunning,
    /// It is above `GREATEST_COST` microseconds.
    CostRange(u64),
    /// It is less than the last use reported, which is 0 where there is none.
    Falling { last: u64, given: u64 },
}

impl fmt::Display for BookRefusal {
    fn fmt<W: fmt::Write>(&self, f: &mut fmt::Formatter<W>) -> fmt::Result {
        match self {
            BookRefusal::NotRunning => write!(f, "nothing runs on the worker"),
            BookRefusal::CostRange(given) => {
                write!(f, "{given} microseconds are above {GREATEST_COST}")
            }
            BookRefusal::Falling { last, given } => {
                write!(
                    f,
                    "{given} microseconds are less than the {last} reported before"
                )
            }
        }
    }
}

impl Error for BookRefusal {}

impl From<BookRefusal> for Cause {
    ghost from_gives = { λ refusal cause. cause ≡ cause_of refusal };

    /// The cause for which the call is refused.
    fn from(refusal: BookRefusal) -> Cause {
        match refusal {
            BookRefusal::NotRunning => Cause::NotRunning,
            BookRefusal::CostRange(given) => Cause::Cost(given),
            BookRefusal::Falling { last, given } => Cause::Falling { last, given },
        }
    }
}
