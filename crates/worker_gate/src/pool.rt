//! Hands that work at once, each in a thread of its own.
ghost use Rattle.std.specs.Prelude.{option_map};
ghost use Rattle.std.specs.Arc.{arc_value};
ghost use Rattle.worker_gate.specs.Hands.{AreHandsOf, HandDid, IsHandOf, HandsDid};

use crate::feed::{OwnKind, feed_rows};
use crate::watch::watch;
use crate::work::work;
use core::mem::replace_with;
use desk::{DeskOf, Floor, Submitter, Worker};
use fq_io::Clock;
use fq_model::event::Cause;
use fq_model::job::Job;
use fq_model::parts::Status;
use gate_rules::cost_rule::{Cost, CostRule};
use gate_rules::gate::Gate;
use gate_rules::logged_gate::{LoggedGate, SliceLog};
use gate_rules::rows::Row;
use status_board::Reader;
use std::collections::VecDeque;
use std::sync::Wait;
use std::thread;
use std::thread::Threads;
use tag_rules::chooser::Chooser;

/// The work of one thread of a pool, before and after.
pub enum Hand<J, G> {
    /// A submitter submits its rows; `total` rows are submitted by all submitters together. Afterwards `rows` are those
    /// that are left, and `stopped` is the refused row before them, if there is one, with its cause.
    Feed {
        who: Submitter,
        rows: VecDeque<Row<J>>,
        total: u32,
        stopped: Option<(Row<J>, Cause)>,
    },
    /// A worker serves, and logs the slices that it asks for.
    Work(Worker, SliceLog<G>),
    /// A watcher reads the status of a desk that shows its past, `left` times. Afterwards `left` is 0, and `seen`,
    /// which has room for them, has the statuses behind its older ones. The reads are spread over the `expected`
    /// entries of the history, as long as entries come.
    Watch {
        reader: Reader,
        left: u32,
        expected: u32,
        seen: Vec<Status>,
    },
}

// Does the part of a hand, and gives it back.
fn run<J: Job + Drop, X: Chooser, G: Gate<J>, K: Clock, F: Cost, R: Wait>(
    desk: &DeskOf<Floor<J, X>>,
    rt: &R,
    hand: Hand<J, G>,
    gate: &LoggedGate<G>,
    clock: &K,
    rule: &CostRule<F>,
) -> Hand<J, G>
    requires { IsHandOf desk.now.lock (option_map arc_value desk.now.board) hand }
    ensures { HandDid J.label_of desk.now.lock (option_map arc_value desk.now.board) (G.course gate.now)
        (F.cost_of rule.now) (K.tells clock.now) hand result }
{
    match hand {
        Hand::Feed {
            mut who,
            mut rows,
            total,
            stopped: _,
        } => {
            let stopped = feed_rows(desk, rt, &mut who, &mut rows, total, clock, &OwnKind);
            Hand::Feed {
                who,
                rows,
                total,
                stopped,
            }
        }
        Hand::Work(worker, mut log) => {
            let worker = work(desk, rt, worker, gate, &mut log, clock, rule);
            Hand::Work(worker, log)
        }
        Hand::Watch {
            mut reader,
            mut left,
            expected,
            mut seen,
        } => {
            let board = desk.board().unwrap();
            watch(board, &mut reader, &mut left, expected, &mut seen);
            Hand::Watch {
                reader,
                left,
                expected,
                seen,
            }
        }
    }
}

// Does the part of the hand that stands there.
fn run_there<J: Job + Drop, X: Chooser, G: Gate<J>, K: Clock, F: Cost, R: Wait>(
    desk: &DeskOf<Floor<J, X>>,
    rt: &R,
    hand: &mut Hand<J, G>,
    gate: &LoggedGate<G>,
    clock: &K,
    rule: &CostRule<F>,
)
    requires { IsHandOf desk.now.lock (option_map arc_value desk.now.board) hand.old }
    ensures { HandDid J.label_of desk.now.lock (option_map arc_value desk.now.board) (G.course gate.now)
        (F.cost_of rule.now) (K.tells clock.now) hand.old hand.new }
{
    replace_with(
        hand,
        (),
        |hand, _| (run(desk, rt, hand, gate, clock, rule), ()),
    );
}

/// Each hand does its part in a thread of its own, and has its token back at the end. Where threads cannot be started
/// the caller does those parts itself, in the order of the hands; so the submitters are to come before the workers, and
/// the watchers after them.
pub fn pool<
    J: Job + Drop + Send,
    X: Chooser + Send,
    G: Gate<J> + Sync,
    K: Clock + Sync,
    F: Cost + Sync,
    R: Threads + Wait + Sync,
>(
    rt: &R,
    desk: &DeskOf<Floor<J, X>>,
    hands: &mut [Hand<J, G>],
    gate: &LoggedGate<G>,
    clock: &K,
    rule: &CostRule<F>,
)
    requires { AreHandsOf desk.now.lock (option_map arc_value desk.now.board) hands.old }
    ensures { HandsDid J.label_of desk.now.lock (option_map arc_value desk.now.board) (G.course gate.now)
        (F.cost_of rule.now) (K.tells clock.now) hands.old hands.new }
{
    let threads = hands.len();
    if threads > 0 {
        // Of the parts for which no thread can be started the last part is done first.
        hands.reverse();
        thread::for_each_mut(
            rt,
            hands,
            threads,
            &|_, hand: &mut Hand<J, G>| { run_there(desk, rt, hand, gate, clock, rule) },
        );
        hands.reverse();
    }
}
