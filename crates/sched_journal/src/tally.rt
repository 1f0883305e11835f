//! Counts of a history.
ghost use Rattle.std.specs.Prelude.{◌≡◌, []};
ghost use Rattle.sched_journal.specs.Tally.{TallyIs, counted, CanCount};

use fq_model::event::Act;

/// Whether a history is closed, and counts of its requests.
#[derive(Clone, Copy)]
pub struct Tally {
    /// Whether nothing more is submitted.
    pub closed: bool,
    /// How many requests were submitted.
    pub submits: u32,
    /// How many requests run.
    pub running: u32,
}

impl Tally {
    /// The tally of a history without entries.
    pub fn new() -> Tally
        ensures { TallyIs [] result }
    {
        Tally {
            closed: false,
            submits: 0,
            running: 0,
        }
    }

    /// One act more.
    pub fn count(&mut self, act: Act)
        requires { CanCount self.old act }
        ensures { self.new ≡ counted self.old act }
    {
        match act {
            Act::Submit { .. } => self.submits += 1,
            Act::Take { .. } => self.running += 1,
            Act::Done { .. } => self.running -= 1,
            Act::Close => self.closed = true,
            Act::Report { .. } | Act::Weight { .. } | Act::Workers { .. } | Act::Withdraw { .. } =>
                {}
        }
    }
}
