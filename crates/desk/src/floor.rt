//! The machine in the lock.
ghost use Rattle.std.specs.Prelude.{◌≡◌, [], IfOk};
ghost use Rattle.fq_model.specs.Limits.{InLimits};
ghost use Rattle.desk.specs.Floors.{opened, KeepsFloor};
ghost use Rattle.desk.specs.Shown.{board_of, Shows};

use crate::answering::answer;
use crate::asking::{Ask, AskForeseen, DeskReply};
use crate::shown::{Shown, show_past};
use fq_model::config::Checked;
use fq_model::event::Foreseen;
use fq_model::job::Job;
use history_lock::{Inspect, Machine};
use sched_state::Scheduler;
use status_board::Board;
use std::alloc::{AllocError, Global};
use std::marker::Model;
use tag_rules::chooser::Chooser;
use tag_rules::foresees::Foresees;

/// The parts that no call changes: the scheduler's configuration, the number of submitters, and the board that shows
/// the past, if there is one. No value of it is ever made: contracts alone use it.
pub struct Crew {
    pub config: Checked,
    pub submitters: u32,
    pub board: Option<Board>,
}

/// A scheduler, the number of its submitters, and its board's writer, if it has one. Submitters come before workers in
/// the numbers of callers: with s submitters these are the callers 0 to s - 1, and worker i is the caller s + i.
#[derive(Drop)]
pub struct Floor<J: Job, X: Chooser> {
    scheduler: Scheduler<J, X>,
    submitters: u32,
    shown: Option<Shown>,
}

impl<J: Job, X: Chooser> Model for Floor<J, X> {
    ghost use Rattle.desk.specs.Floors.{FloorView, floor_code, KeepsFloor};
    ghost use Rattle.desk.specs.Shown.{board_of, Shows};

    ghost Value = { FloorView J };

    ghost coded = { floor_code J.code };

    ghost view = { λ f. record { scheduler = f.scheduler; submitters = f.submitters; board = board_of f.shown } };

    ghost invariant = { λ f. KeepsFloor f.scheduler f.submitters
        × Shows f.scheduler.config f.scheduler.past f.shown };
}

impl<J: Job + Drop, X: Chooser> Floor<J, X> {
    /// A floor with no past. All its memory is taken here, but for that of its board.
    pub(crate) fn open(
        alloc: Global,
        config: Checked,
        submitters: u32,
        shown: Option<Shown>,
    ) -> Result<Floor<J, X>, AllocError>
        requires limits { InLimits config }
        requires shown { Shows config [] shown }
        ensures { IfOk result (λ f. f ≡ opened config submitters (board_of shown)) }
    {
        let scheduler = Scheduler::open(alloc, config)?;
        Ok(Floor {
            scheduler,
            submitters,
            shown,
        })
    }
}

impl<J: Job, X: Chooser> Floor<J, X> {
    /// The scheduler, and the board and writer that show its past, if it is shown.
    pub(crate) fn into_parts(self) -> (Scheduler<J, X>, Option<Shown>)
        ensures same { (result.0 ≡ self.scheduler) × (board_of result.1 ≡ self.board) }
        ensures kept { KeepsFloor result.0 self.submitters }
        ensures shows { Shows result.0.config result.0.past result.1 }
    {
        (self.scheduler, self.shown)
    }
}

impl<J: Job + Drop, X: Chooser> Machine for Floor<J, X> {
    ghost use Rattle.desk.specs.Floors.{crew_of};
    ghost use Rattle.desk.specs.Staffed.{MayAsk};
    ghost use Rattle.desk.specs.Asking.{AnswersAsk};
    ghost use Rattle.desk.specs.Growing.{answers_grow};

    type Call = Ask<J>;

    type Reply = DeskReply<J>;

    type Frame = Crew;

    ghost past = { λ f. f.scheduler.past };

    ghost frame = { crew_of };

    ghost allowed = { MayAsk };

    ghost answers = { AnswersAsk J.label_of };

    ghost grows = { answers_grow J.label_of };

    fn step(&mut self, who: u32, call: Ask<J>) -> DeskReply<J> {
        let told = answer(&mut self.scheduler, who, call);
        show_past(&mut self.shown, &self.scheduler);
        told
    }
}

impl<J: Job + Drop, X: Foresees> Inspect for Floor<J, X> {
    ghost use Rattle.desk.specs.Found.{finds_foreseen};

    type Question = AskForeseen;

    type Finding = Foreseen;

    ghost finds = { finds_foreseen };

    fn inspect(&self, question: AskForeseen) -> Foreseen {
        self.scheduler
            .foresee(question.moment, question.worker, question.below)
    }
}
