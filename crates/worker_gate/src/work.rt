//! How a worker serves.
ghost use Rattle.std.specs.Prelude.{Bool, ◌≤◌, List, [], ◌∷◌};
ghost use Rattle.fq_model.specs.History.{history_of, last_use};
ghost use Rattle.history_lock.specs.Passes.{IsOf};
ghost use Rattle.worker_gate.specs.Running.{Worked};
ghost use Rattle.desk.specs.declared.tokens.Worker.{Worker};
ghost use Rattle.gate_rules.specs.declared.logged_gate.Asked.{Asked};
ghost use Rattle.worker_gate.specs.Serving.{IsAtStart, HasNamed, HasRunSlices, HasRun, Serves, HasTurned};

use desk::{DeskOf, Floor, Running, Took, Worker};
use fq_io::Clock;
use fq_model::job::Job;
use fq_model::limits::{GREATEST_COST, MOST_SLICES};
use gate_rules::cost_rule::{Cost, CostRule};
use gate_rules::counters::NO_COUNTERS;
use gate_rules::gate::{Gate, Slice};
use gate_rules::logged_gate::{LoggedGate, SliceLog};
use std::sync::Wait;
use tag_rules::chooser::Chooser;

// Reports the request's use so far. It is refused only where the history has no room for it.
fn report_use<J: Job + Drop, X: Chooser, K: Clock, R: Wait>(
    desk: &DeskOf<Floor<J, X>>,
    rt: &R,
    running: &mut Running,
    clock: &K,
    used: u64,
)
    requires own { IsOf desk.now.lock running.old.pass }
    requires rising { last_use (history_of running.old.pass.mine) running.old.request ≤ used }
    requires limit { used ≤ GREATEST_COST }
    ensures { (is_kept : Bool) × HasNamed desk.now.lock (K.tells clock.now) running.old running.new
        (record { used = used; is_kept = is_kept } ∷ []) used }
{
    let _ = desk.report(rt, running, clock.now(), used);
}

// Runs the job's slices up to its end, and reports each use but the last. Answers the last use, the job's cost.
fn run_slices<J: Job + Drop, X: Chooser, G: Gate<J>, K: Clock, F: Cost, R: Wait>(
    desk: &DeskOf<Floor<J, X>>,
    rt: &R,
    running: &mut Running,
    job: &J,
    gate: &LoggedGate<G>,
    log: &mut SliceLog<G>,
    clock: &K,
    rule: &CostRule<F>,
) -> u64
    requires { IsAtStart desk.now.lock running.old }
    ensures slices { HasRunSlices desk.now.lock (K.tells clock.now) (G.course gate.now) (F.cost_of rule.now)
        (J.label_of job.now) running.old running.new log.old log.new result }
    ensures limit { result ≤ GREATEST_COST }
{
    let mut last = NO_COUNTERS;
    for k in 0..MOST_SLICES - 1 {
        match gate.slice(log, job, k, last) {
            Slice::More(counters) => {
                report_use(desk, rt, running, clock, rule.cost(counters));
                last = counters;
            }
            Slice::End(counters) => return rule.cost(counters),
        }
    }
    match gate.slice(log, job, MOST_SLICES - 1, last) {
        Slice::More(counters) | Slice::End(counters) => rule.cost(counters),
    }
}

// Runs the job to its end.
fn run_job<J: Job + Drop, X: Chooser, G: Gate<J>, K: Clock, F: Cost, R: Wait>(
    desk: &DeskOf<Floor<J, X>>,
    rt: &R,
    mut running: Running,
    job: &J,
    gate: &LoggedGate<G>,
    log: &mut SliceLog<G>,
    clock: &K,
    rule: &CostRule<F>,
) -> Worker
    requires { IsAtStart desk.now.lock running }
    ensures { HasRun desk.now.lock (K.tells clock.now) (G.course gate.now) (F.cost_of rule.now)
        (J.label_of job.now) running result log.old log.new }
{
    let cost = run_slices(desk, rt, &mut running, job, gate, log, clock, rule);
    desk.done(rt, running, clock.now(), cost).unwrap()
}

// The worker after its turn to take a job.
enum AfterTake {
    // It goes on.
    On(Worker),
    // Nothing waits and nothing more will come, or the pool has no place for the worker.
    Over(Worker),
}

// Takes a job and runs it to its end, or sleeps where nothing waits.
fn take_turn<J: Job + Drop, X: Chooser, G: Gate<J>, K: Clock, F: Cost, R: Wait>(
    desk: &DeskOf<Floor<J, X>>,
    rt: &R,
    free: Worker,
    gate: &LoggedGate<G>,
    log: &mut SliceLog<G>,
    clock: &K,
    rule: &CostRule<F>,
) -> AfterTake
    requires { IsOf desk.now.lock free.pass }
    ensures { (begun : Worker) (asked : List Asked)
        → Serves desk.now.lock (K.tells clock.now) (G.course gate.now) (F.cost_of rule.now) begun free asked log.old
        → HasTurned desk.now.lock (K.tells clock.now) (G.course gate.now) (F.cost_of rule.now)
        begun result asked log.new }
{
    let heard = desk.heard();
    match desk.take(rt, free, clock.now()) {
        Took::Run(running, job) => {
            AfterTake::On(run_job(desk, rt, running, &job, gate, log, clock, rule))
        }
        Took::Idle(back) => {
            desk.await_news(rt, heard);
            AfterTake::On(back)
        }
        Took::Drained(back) | Took::Retired(back, _) => AfterTake::Over(back),
    }
}

/// Takes one job after another and runs each to its end, until nothing waits and nothing more will come, or the pool
/// has no place for the worker. The gate is asked for each slice of a job once, in order and up to the first End, and
/// the log gains these slices and no others. After each slice but the last the use is reported, which is the rule's
/// cost of the counters; where the history has no room, no entry is added. Slice 9,999 is the last, whatever the gate
/// answers. The clock is asked before each call, and the worker sleeps while nothing waits.
pub fn work<J: Job + Drop, X: Chooser, G: Gate<J>, K: Clock, F: Cost, R: Wait>(
    desk: &DeskOf<Floor<J, X>>,
    rt: &R,
    worker: Worker,
    gate: &LoggedGate<G>,
    log: &mut SliceLog<G>,
    clock: &K,
    rule: &CostRule<F>,
) -> Worker
    requires { IsOf desk.now.lock worker.pass }
    ensures { Worked desk.now.lock (G.course gate.now) (F.cost_of rule.now) (K.tells clock.now) worker result
        log.old log.new }
{
    let mut free = worker;
    for _ in rt.forever() {
        match take_turn(desk, rt, free, gate, log, clock, rule) {
            AfterTake::On(next) => free = next,
            AfterTake::Over(back) => return back,
        }
    }
    free
}
