//! How a desk is opened.
ghost use Rattle.std.specs.Prelude.{◌≡◌, ◌≤◌, ◌+◌, ◌-◌, [], length, IfOk, IfErr, IfSome, None, false};
ghost use Rattle.std.specs.Prelude.{option_map, vec_capacity};
ghost use Rattle.std.specs.Arc.{arc_value};
ghost use Rattle.vt_fixed.specs.declared.limits.TheConstants.{MOST_WORKERS};
ghost use Rattle.fq_model.specs.Limits.{InLimits, IsWithin, is_outside};
ghost use Rattle.desk.specs.declared.desk.TheConstants.{MOST_SUBMITTERS};
ghost use Rattle.desk.specs.Floors.{crew_for};
ghost use Rattle.desk.specs.Opening.{IsSplit, IsFresh, AreSubmitters, AreWorkers, AreTokens, AreShownTokens, IsOutside};
ghost use Rattle.desk.specs.Shown.{board_of, Shows};

use crate::bell::Bell;
use crate::desk::{DeskOf, MOST_SUBMITTERS};
use crate::floor::{Crew, Floor};
use crate::refusals::OpenFault;
use crate::shown::{Shown, show_nothing};
use crate::tokens::{Submitter, Worker};
use fq_model::config::Checked;
use fq_model::job::Job;
use history_lock::{HistoryLock, Pass};
use status_board::Reader;
use std::alloc::Global;
use tag_rules::chooser::Chooser;

// Whether a desk may have this number of submitters.
fn check_submitters(submitters: u32) -> Result<(), OpenFault>
    ensures range { IfOk result (λ _. IsWithin 1 MOST_SUBMITTERS submitters) }
    ensures within { IfOk result (λ _. is_outside 1 MOST_SUBMITTERS submitters ≡ false) }
    ensures fault { IfErr result (IsOutside submitters) }
{
    if submitters < 1 || submitters > MOST_SUBMITTERS {
        return Err(OpenFault::Submitters(submitters));
    }
    Ok(())
}

// Room for the tokens, taken first, so that no token is stranded for want of memory.
fn room(alloc: Global, submitters: u32, workers: u32) -> Option<(Vec<Submitter>, Vec<Worker>)>
    ensures submitters { IfSome result (λ r. (r.0.items ≡ []) × (submitters ≤ vec_capacity r.0)) }
    ensures workers { IfSome result (λ r. (r.1.items ≡ []) × (workers ≤ vec_capacity r.1)) }
{
    let first = Vec::with_capacity(alloc, submitters as usize).ok()?;
    match Vec::with_capacity(alloc, workers as usize) {
        Ok(second) => Some((first, second)),
        Err(_) => {
            first.destroy_empty();
            None
        }
    }
}

// A lock round a floor with no past, and its first pass.
fn locked<J: Job + Drop, X: Chooser + Drop>(
    alloc: Global,
    config: Checked,
    submitters: u32,
    shown: Option<Shown>,
) -> Option<(HistoryLock<Floor<J, X>>, Pass<Crew>)>
    requires limits { InLimits config }
    requires shown { Shows config [] shown }
    ensures { IfSome result (λ r. IsFresh (crew_for config submitters (board_of shown)) r.0 r.1) }
{
    let Ok(floor) = Floor::open(alloc, config, submitters, shown) else {
        return None;
    };
    match HistoryLock::open(alloc, floor) {
        Ok((lock, pass)) => Some((lock, pass)),
        Err(_) => None,
    }
}

// The tokens of all submitters but the first, who keeps the first pass.
fn split_submitters<J: Job + Drop, X: Chooser>(
    lock: &HistoryLock<Floor<J, X>>,
    zero: &mut Pass<Crew>,
    tokens: &mut Vec<Submitter>,
    submitters: u32,
)
    requires zero { IsSplit lock.now 0 zero.old }
    requires some { 1 ≤ lock.now.frame.submitters }
    requires few { lock.now.frame.submitters ≤ MOST_SUBMITTERS }
    requires room { (tokens.old.items ≡ []) × (lock.now.frame.submitters ≤ vec_capacity tokens.old) }
    requires submitters { submitters ≡ lock.now.frame.submitters }
    ensures zero { IsSplit lock.now (length tokens.new.items) zero.new }
    ensures tokens { AreSubmitters lock.now 1 tokens.new.items }
    ensures count { length tokens.new.items + 1 ≡ submitters }
    ensures room { vec_capacity tokens.new ≡ vec_capacity tokens.old }
{
    for _number in 1..submitters {
        let pass = lock.split(zero);
        tokens.push_reserved(Submitter { pass });
    }
}

// The tokens of all workers.
fn split_workers<J: Job + Drop, X: Chooser>(
    lock: &HistoryLock<Floor<J, X>>,
    zero: &mut Pass<Crew>,
    tokens: &mut Vec<Worker>,
    workers: u32,
)
    requires zero { IsSplit lock.now (lock.now.frame.submitters - 1) zero.old }
    requires some { (1 ≤ lock.now.frame.submitters) × (lock.now.frame.submitters ≤ MOST_SUBMITTERS) }
    requires workers { (workers ≡ lock.now.frame.config.workers) × (workers ≤ MOST_WORKERS) }
    requires room { (tokens.old.items ≡ []) × (workers ≤ vec_capacity tokens.old) }
    ensures zero { IsSplit lock.now (lock.now.frame.submitters + workers - 1) zero.new }
    ensures tokens { AreWorkers lock.now 0 tokens.new.items }
    ensures count { length tokens.new.items ≡ workers }
{
    for worker in 0..workers {
        let pass = lock.split(zero);
        tokens.push_reserved(Worker { pass, worker });
    }
}

// A lock round a floor with no past, and the tokens of all its callers.
fn staffed<J: Job + Drop, X: Chooser + Drop>(
    alloc: Global,
    config: Checked,
    submitters: u32,
    shown: Option<Shown>,
) -> Option<(HistoryLock<Floor<J, X>>, Vec<Submitter>, Vec<Worker>)>
    requires submitters { IsWithin 1 MOST_SUBMITTERS submitters }
    requires shown { Shows config [] shown }
    ensures { IfSome result (λ r. AreTokens (crew_for config submitters (board_of shown)) r.0 r.1.items r.2.items) }
{
    let staff = config.workers();
    let (mut first, mut second) = room(alloc, submitters, staff)?;
    let Some((lock, mut zero)) = locked(alloc, config, submitters, shown) else {
        first.destroy_empty();
        second.destroy_empty();
        return None;
    };
    split_submitters(&lock, &mut zero, &mut first, submitters);
    split_workers(&lock, &mut zero, &mut second, staff);
    first.insert(0, Submitter { pass: zero }).unwrap();
    Some((lock, first, second))
}

impl<J: Job + Drop, X: Chooser + Drop> DeskOf<Floor<J, X>> {
    /// A desk with no past, for 1 to `MOST_SUBMITTERS` submitters, and its tokens: those of the submitters, and those
    /// of as many workers as the configuration has. All memory of the desk is taken here.
    pub fn open(
        alloc: Global,
        config: Checked,
        submitters: u32,
    ) -> Result<(DeskOf<Floor<J, X>>, Vec<Submitter>, Vec<Worker>), OpenFault>
        ensures tokens { IfOk result (λ r. AreTokens (crew_for config submitters None) r.0.lock r.1.items r.2.items) }
        ensures board { IfOk result (λ r. r.0.board ≡ None) }
        ensures within { IfOk result (λ r. is_outside 1 MOST_SUBMITTERS submitters ≡ false) }
        ensures fault { IfErr result (IsOutside submitters) }
    {
        check_submitters(submitters)?;
        let Some((lock, first, second)) = staffed(alloc, config, submitters, None) else {
            return Err(OpenFault::NoMemory);
        };
        let desk = DeskOf {
            lock,
            bell: Bell::new(),
            board: None,
        };
        Ok((desk, first, second))
    }

    /// A desk as `open` makes it, with a board that shows the status of the past after each call that adds to it. It
    /// also gives a first reader, which reads at the desk's `board`; `finish_shown` ends such a desk.
    pub fn open_shown(
        alloc: Global,
        config: Checked,
        submitters: u32,
    ) -> Result<(DeskOf<Floor<J, X>>, Reader, Vec<Submitter>, Vec<Worker>), OpenFault>
        ensures tokens { IfOk result (λ r. AreShownTokens config submitters r.0.lock (option_map arc_value r.0.board)
            r.1 r.2.items r.3.items) }
        ensures within { IfOk result (λ r. is_outside 1 MOST_SUBMITTERS submitters ≡ false) }
        ensures fault { IfErr result (IsOutside submitters) }
    {
        check_submitters(submitters)?;
        let Some((board, shown, reader)) = show_nothing(alloc, &config) else {
            return Err(OpenFault::NoMemory);
        };
        let Some((lock, first, second)) = staffed(alloc, config, submitters, Some(shown)) else {
            reader.end();
            return Err(OpenFault::NoMemory);
        };
        let desk = DeskOf {
            lock,
            bell: Bell::new(),
            board: Some(board),
        };
        Ok((desk, reader, first, second))
    }
}
