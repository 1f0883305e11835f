//! Hands are made of tokens, and give them back.
ghost use Rattle.std.specs.Prelude.{◌≡◌, ◌≤◌, ◌+◌, [], length, vec_capacity};
ghost use Rattle.fq_model.specs.declared.limits.TheConstants.{MOST_ROWS};
ghost use Rattle.desk.specs.Opening.{AreSubmitters, AreWorkers, HasMade};
ghost use Rattle.trace_pool.specs.Parts.{AreRowsOf, IsCrewOf, IsFeedOf, AreHands};
ghost use Rattle.trace_pool.specs.Tokens.{AreTokensOf, HasPlaces};
ghost use Rattle.trace_pool.specs.Places.{HoldsFrom};

use crate::gate::TraceGate;
use desk::{DeskOf, Floor, Submitter, Worker};
use fq_model::parts::Status;
use gate_rules::logged_gate::LoggedGate;
use gate_rules::rows::Row;
use program_model::trace::TraceRow;
use status_board::Reader;
use std::collections::VecDeque;
use tag_rules::chooser::Chooser;
use worker_gate::pool::Hand;

/// The tokens of a desk's callers, the readers of its board, and the statuses that they have read.
pub struct Tokens {
    pub submitters: Vec<Submitter>,
    pub workers: Vec<Worker>,
    pub readers: Vec<Reader>,
    pub statuses: Vec<Status>,
}

/// Makes a hand of each submitter with its rows, and then of each worker with a log of its own.
pub fn hand_out<'a, X: Chooser>(
    desk: &DeskOf<Floor<u64, X>>,
    rows: &[TraceRow],
    queues: Vec<VecDeque<Row<u64>>>,
    submitters: &mut Vec<Submitter>,
    workers: &mut Vec<Worker>,
    gate: &mut LoggedGate<TraceGate<'a>>,
    hands: &mut Vec<Hand<u64, TraceGate<'a>>>,
)
    requires rows { (length rows.now ≤ MOST_ROWS) × IsCrewOf rows.now desk.now.lock }
    requires queues { HoldsFrom (λ j q. AreRowsOf rows.now j q.items) 0 queues.items
        × (length queues.items ≡ length submitters.old.items) }
    requires tokens { AreSubmitters desk.now.lock 0 submitters.old.items × AreWorkers desk.now.lock 0 workers.old.items
        × HasMade (desk.now.lock.frame.submitters + desk.now.lock.frame.config.workers) submitters.old.items }
    requires room { (hands.old.items ≡ [])
        × (length submitters.old.items + length workers.old.items ≤ vec_capacity hands.old) }
    ensures hands { AreHands rows.now desk.now.lock (length submitters.old.items) (length workers.old.items)
        hands.new.items }
    ensures submitters { (submitters.new.items ≡ []) × (length submitters.old.items ≤ vec_capacity submitters.new) }
    ensures workers { (workers.new.items ≡ []) × (length workers.old.items ≤ vec_capacity workers.new) }
    ensures gate { gate.new ≡ gate.old }
    ensures capacity { vec_capacity hands.new ≡ vec_capacity hands.old }
{
    give_rows(desk, rows, queues, submitters, hands);
    give_work(desk, rows, workers, gate, hands);
}

fn give_rows<'a, X: Chooser>(
    desk: &DeskOf<Floor<u64, X>>,
    rows: &[TraceRow],
    mut queues: Vec<VecDeque<Row<u64>>>,
    submitters: &mut Vec<Submitter>,
    hands: &mut Vec<Hand<u64, TraceGate<'a>>>,
)
    requires rows { length rows.now ≤ MOST_ROWS }
    requires queues { HoldsFrom (λ j q. AreRowsOf rows.now j q.items) 0 queues.items
        × (length queues.items ≡ length submitters.old.items) }
    requires tokens { AreSubmitters desk.now.lock 0 submitters.old.items
        × HasMade (desk.now.lock.frame.submitters + desk.now.lock.frame.config.workers) submitters.old.items }
    requires room { (hands.old.items ≡ []) × (length submitters.old.items ≤ vec_capacity hands.old) }
    ensures hands { HoldsFrom (IsFeedOf rows.now desk.now.lock) 0 hands.new.items }
    ensures count { length hands.new.items ≡ length submitters.old.items }
    ensures room { vec_capacity hands.new ≡ vec_capacity hands.old }
    ensures submitters { (submitters.new.items ≡ []) × (length submitters.old.items ≤ vec_capacity submitters.new) }
{
    let total = rows.len() as u32;
    while !submitters.is_empty() {
        hands.push_reserved(Hand::Feed {
            who: submitters.remove(0),
            rows: queues.remove(0),
            total,
            stopped: None,
        });
    }
}

fn give_work<'a, X: Chooser>(
    desk: &DeskOf<Floor<u64, X>>,
    rows: &[TraceRow],
    workers: &mut Vec<Worker>,
    gate: &mut LoggedGate<TraceGate<'a>>,
    hands: &mut Vec<Hand<u64, TraceGate<'a>>>,
)
    requires rows { IsCrewOf rows.now desk.now.lock }
    requires tokens { AreWorkers desk.now.lock 0 workers.old.items }
    requires room { length hands.old.items + length workers.old.items ≤ vec_capacity hands.old }
    requires feeds { HoldsFrom (IsFeedOf rows.now desk.now.lock) 0 hands.old.items }
    ensures hands { AreHands rows.now desk.now.lock (length hands.old.items) (length workers.old.items)
        hands.new.items }
    ensures workers { (workers.new.items ≡ []) × (length workers.old.items ≤ vec_capacity workers.new) }
    ensures gate { gate.new ≡ gate.old }
    ensures capacity { vec_capacity hands.new ≡ vec_capacity hands.old }
{
    while !workers.is_empty() {
        hands.push_reserved(Hand::Work(workers.remove(0), gate.log()));
    }
}

/// Gives all tokens back, in their order, and the statuses that the last watcher has read.
pub fn take_back<'a>(hands: &mut Vec<Hand<u64, TraceGate<'a>>>, tokens: &mut Tokens)
    requires { HasPlaces hands.old.items tokens.old }
    ensures hands { hands.new.items ≡ [] }
    ensures tokens { AreTokensOf hands.old.items tokens.old.statuses.items tokens.new }
{
    while !hands.is_empty() {
        match hands.remove(0) {
            Hand::Feed {
                who,
                rows: _,
                total: _,
                stopped: _,
            } => tokens.submitters.push_reserved(who),
            Hand::Work(worker, _log) => tokens.workers.push_reserved(worker),
            Hand::Watch {
                reader,
                left: _,
                expected: _,
                seen,
            } => {
                tokens.readers.push_reserved(reader);
                tokens.statuses = seen;
            }
        }
    }
}
