//! How a submitter submits its rows.
ghost use Rattle.std.specs.Prelude.{ℕ, suc, ◌≡◌, ◌≤◌, ◌==◌};
ghost use Rattle.fq_model.specs.declared.event.Call.TheVariants as call;
ghost use Rattle.fq_model.specs.declared.event.Reply.{Reply};
ghost use Rattle.history_lock.specs.Passes.{IsOf};
ghost use Rattle.desk.specs.Tokens.{Stays, IsAnswered};
ghost use Rattle.gate_rules.specs.declared.rows.Row.{Row};
ghost use Rattle.worker_gate.specs.Feeding.{Feeds, NotByKind, fed_stopped, fed_rest};

use desk::{DeskOf, Floor, Submitter};
use fq_io::Clock;
use fq_model::event::Cause;
use fq_model::job::Job;
use gate_rules::kind_rule::{Kind, KindRule};
use gate_rules::rows::{Fed, Row};
use sched_state::Refused;
use std::collections::VecDeque;
use std::sync::Wait;
use tag_rules::chooser::Chooser;

// The kind that a row is submitted with.
pub(crate) trait KindFor<J> {
    ghost kind_for: { Self → Row J → ℕ };

    fn kind_for(&self, row: &Row<J>) -> u32
        ensures { result ≡ kind_for self.now row.now };
}

// The kind that the row names.
pub(crate) struct OwnKind;

impl<J> KindFor<J> for OwnKind {
    ghost kind_for = { λ _ row. row.kind };

    fn kind_for(&self, row: &Row<J>) -> u32 {
        row.kind
    }
}

impl<J, F: Kind<J>> KindFor<J> for KindRule<J, F> {
    ghost kind_for = { λ rule row. F.kind_of rule.function row.job };

    fn kind_for(&self, row: &Row<J>) -> u32 {
        self.kind(&row.job)
    }
}

// Whether the request is the last of `total` requests.
fn is_last(request: u32, total: u32) -> bool
    ensures { result ≡ (suc request == total) }
{
    total > 0 && request == total - 1
}

// Closes. It is no fault that the scheduler is closed already.
fn close_now<J: Job + Drop, X: Chooser, K: Clock, R: Wait>(
    desk: &DeskOf<Floor<J, X>>,
    rt: &R,
    who: &mut Submitter,
    clock: &K,
)
    requires { IsOf desk.now.lock who.old.pass }
    ensures stays { Stays desk.now.lock who.old.pass who.new.pass }
    ensures answers { (m : ℕ) × (reply : Reply) × K.tells clock.now m
        × IsAnswered desk.now.lock.frame who.old.pass (call.Close who.old.pass.number m) reply who.new.pass }
{
    let _closed = desk.close(rt, who, clock.now());
}

// Submits the rows in order, up to the first that is refused, and takes them out of the queue. Answers the refused row.
pub(crate) fn feed_rows<J: Job + Drop, X: Chooser, K: Clock, R: Wait, N: KindFor<J>>(
    desk: &DeskOf<Floor<J, X>>,
    rt: &R,
    who: &mut Submitter,
    rows: &mut VecDeque<Row<J>>,
    total: u32,
    clock: &K,
    kinds: &N,
) -> Option<(Row<J>, Cause)>
    requires { IsOf desk.now.lock who.old.pass }
    ensures { Feeds J.label_of (N.kind_for kinds.now) desk.now.lock (K.tells clock.now) total
        rows.old.items who.old who.new result rows.new.items }
{
    let number = who.number();
    if total == 0 && number == 0 {
        close_now(desk, rt, who, clock);
    }
    while let Some(mut row) = rows.pop_front() {
        let kind = kinds.kind_for(&row);
        let moment = clock.now();
        match desk.submit(rt, who, moment, row.tenant, kind, row.declared, row.job) {
            Ok(request) => {
                if is_last(request, total) {
                    close_now(desk, rt, who, clock);
                }
            }
            Err(Refused { job, cause }) => {
                row.job = job;
                return Some((row, cause));
            }
        }
    }
    None
}

/// Submits the rows in order, up to the first that is refused. After the Submit of request `total - 1` it closes; where
/// `total` is 0, submitter 0 closes before its rows. It is no fault that another submitter has closed before. The clock
/// is asked before each call.
pub fn feed<J: Job + Drop, X: Chooser, K: Clock, R: Wait>(
    desk: &DeskOf<Floor<J, X>>,
    rt: &R,
    who: &mut Submitter,
    mut rows: VecDeque<Row<J>>,
    total: u32,
    clock: &K,
) -> Fed<J>
    requires { IsOf desk.now.lock who.old.pass }
    ensures { Feeds J.label_of (λ row. row.kind) desk.now.lock (K.tells clock.now) total
        rows.items who.old who.new (fed_stopped result) (fed_rest result) }
{
    match feed_rows(desk, rt, who, &mut rows, total, clock, &OwnKind) {
        None => Fed::All,
        Some((row, cause)) => Fed::Stopped {
            row,
            rest: rows,
            cause,
        },
    }
}

/// Submits the rows in order as `feed` does, each with the kind that the rule answers for its job. The kind that a row
/// names is not read.
pub fn feed_by<J: Job + Drop, X: Chooser, K: Clock, R: Wait, F: Kind<J>>(
    desk: &DeskOf<Floor<J, X>>,
    rt: &R,
    who: &mut Submitter,
    mut rows: VecDeque<Row<J>>,
    total: u32,
    clock: &K,
    kinds: &KindRule<J, F>,
) -> Fed<J>
    requires own { IsOf desk.now.lock who.old.pass }
    requires kinds { kinds.now.kinds ≤ desk.now.lock.frame.config.kinds }
    ensures feeds { Feeds J.label_of (λ row. F.kind_of kinds.now.function row.job) desk.now.lock
        (K.tells clock.now) total rows.items who.old who.new (fed_stopped result) (fed_rest result) }
    ensures no_kind { NotByKind (fed_stopped result) }
{
    kinds.answers_below();
    match feed_rows(desk, rt, who, &mut rows, total, clock, kinds) {
        None => Fed::All,
        Some((row, cause)) => Fed::Stopped {
            row,
            rest: rows,
            cause,
        },
    }
}
