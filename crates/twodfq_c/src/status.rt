//! The status of a scheduler in plain numbers.
ghost use Rattle.std.specs.Prelude.{◌≡◌, ◌≤ℤ◌, pos, Some};
ghost use Rattle.fq_model.specs.declared.limits.TheConstants.{GREATEST_VIRTUAL_TIME};
ghost use Rattle.twodfq_c.specs.Statuses.{TellsStatus, TellsHeld, no_status};

use crate::slot::Served;
use fq_model::parts::Status;

/// The status of a scheduler after its last entry. Virtual time is in units, of which each has 1,048,576 steps.
///
/// | kind | meaning |
/// |---|---|
/// | 0 | the numbers are the scheduler's |
/// | 255 | the handle holds no scheduler, and the numbers are 0 |
#[repr(C)]
#[derive(Clone, Copy, Debug, PartialEq, Eq)]
pub struct PlainStatus {
    pub kind: u32,
    /// How many requests wait.
    pub waiting: u32,
    /// How many requests run.
    pub running: u32,
    /// Virtual time beyond its whole units, in steps.
    pub steps: u32,
    /// Virtual time in whole units.
    pub units: u64,
    /// How many entries there are.
    pub entries: u64,
    /// The moment of the last entry in microseconds, or 0.
    pub moment: u64,
}

const STEPS: u128 = 1048576;

impl PlainStatus {
    /// The status where there is no scheduler.
    pub(crate) fn missing() -> PlainStatus
        ensures { result ≡ no_status }
    {
        PlainStatus {
            kind: 255,
            waiting: 0,
            running: 0,
            steps: 0,
            units: 0,
            entries: 0,
            moment: 0,
        }
    }

    /// The status in numbers.
    fn of(status: Status) -> PlainStatus
        requires low { pos 0 ≤ℤ status.vtime }
        requires high { status.vtime ≤ℤ GREATEST_VIRTUAL_TIME }
        ensures { TellsStatus status result }
    {
        let vtime = status.vtime as u128;
        PlainStatus {
            kind: 0,
            waiting: status.waiting,
            running: status.running,
            steps: (vtime % STEPS) as u32,
            units: (vtime / STEPS) as u64,
            entries: status.entries,
            moment: status.moment,
        }
    }
}

/// The status of this scheduler.
pub(crate) fn status_of(served: &Served) -> PlainStatus
    ensures { TellsHeld (Some served.now) result }
{
    PlainStatus::of(Status {
        vtime: served.virtual_time(),
        ..served.status()
    })
}
