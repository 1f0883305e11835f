//! A trace, served by a pool.
ghost use Rattle.std.specs.Prelude.{◌≡◌, ◌≤◌, ◌<◌, ◌+◌, ◌⊎◌, [], length, vec_capacity, Err, IfOk, IfErr, option_map};
ghost use Rattle.std.specs.Arc.{arc_value};
ghost use Rattle.vt_fixed.specs.declared.limits.TheConstants.{GREATEST_COST};
ghost use Rattle.fq_model.specs.declared.limits.TheConstants.{MOST_ROWS};
ghost use Rattle.fq_model.specs.History.{history_of};
ghost use Rattle.program_model.specs.RunLimits.{AreInRange};
ghost use Rattle.program_model.specs.PoolHistory.{IsPoolHistory, HasToldMoments, pool_config};
ghost use Rattle.program_model.specs.Readings.{AreReadings};
ghost use Rattle.program_model.specs.TraceText.{IsLawfulTrace};
ghost use Rattle.trace_reader.specs.Rows.{AreCosts};
ghost use Rattle.trace_pool.specs.Parts.{HaveDone};
ghost use Rattle.trace_pool.specs.Serving.{AreSupplies, HasRoom, HasWatched, IsServable, IsTeamOf, IsTooLong, too_long};
ghost use Rattle.trace_pool.specs.declared.fault.PoolFault.TheVariants as faults;

use crate::dealing::deal;
use crate::fault::PoolFault;
use crate::gate::TraceGate;
use crate::hands::{Tokens, hand_out, take_back};
use crate::needed::needed;
use desk::{DeskOf, Floor};
use fq_io::Clock;
use fq_model::config::Checked;
use fq_model::limits::{LEAST_ENTRIES, MOST_ENTRIES};
use fq_model::parts::Status;
use gate_rules::cost_rule::{CostRule, WorkCost};
use gate_rules::logged_gate::LoggedGate;
use gate_rules::rows::Row;
use program_model::trace::{RunOptions, TraceRow};
use sched_journal::History;
use status_board::Reader;
use std::alloc::Global;
use std::collections::VecDeque;
use std::sync::Wait;
use std::thread::Threads;
use tag_rules::chooser::Chooser;
use trace_reader::opening::{config_of, submitters};
use trace_reader::trace::Trace;
use worker_gate::pool::{Hand, pool};

/// The history that a pool made of a trace.
#[derive(Drop)]
pub struct Served {
    pub history: History,
    /// The scheduler's status at each read, the oldest first.
    pub statuses: Vec<Status>,
}

// Room for the hands of a pool, for its statuses and for a reader.
struct Room<'a> {
    hands: Vec<Hand<u64, TraceGate<'a>>>,
    statuses: Vec<Status>,
    readers: Vec<Reader>,
}

// A trace to serve, and how often the status is read meanwhile.
#[derive(Clone, Copy)]
struct Order<'a> {
    trace: &'a Trace,
    options: RunOptions,
    times: u32,
}

// All that is taken before a desk is opened: its configuration, the rows of each submitter, and room.
struct Supplies<'a> {
    config: Checked,
    queues: Vec<VecDeque<Row<u64>>>,
    room: Room<'a>,
}

// Those who serve the rows of a trace: the callers of a desk, the rows of each submitter, and a watcher. There is room
// for their hands.
struct Team<'a> {
    tokens: Tokens,
    queues: Vec<VecDeque<Row<u64>>>,
    watcher: Hand<u64, TraceGate<'a>>,
    hands: Vec<Hand<u64, TraceGate<'a>>>,
}

// The team serves the rows of the gate, each of it in a thread of its own. Gives the tokens back, and the statuses.
fn serve_rows<'a, X: Chooser + Drop + Send, K: Clock + Sync, R: Threads + Wait + Sync>(
    rt: &R,
    desk: &DeskOf<Floor<u64, X>>,
    rows: &'a [TraceRow],
    refresh: u64,
    clock: &K,
    team: Team<'a>,
) -> Tokens
    requires rows { (length rows.now ≤ MOST_ROWS) × AreCosts rows.now × (refresh ≤ GREATEST_COST) }
    requires team { IsTeamOf desk.now.lock (option_map arc_value desk.now.board) rows.now team }
    ensures done { HaveDone rows.now desk.now.lock refresh (K.tells clock.now) result.submitters.items
        result.workers.items }
    ensures watched { HasWatched (option_map arc_value desk.now.board) team.entry.watcher result }
{
    let Team {
        mut tokens,
        queues,
        watcher,
        mut hands,
    } = team;
    let mut gate = LoggedGate::new(TraceGate::new(rows, refresh));
    hand_out(
        desk,
        rows,
        queues,
        &mut tokens.submitters,
        &mut tokens.workers,
        &mut gate,
        &mut hands,
    );
    hands.push_reserved(watcher);
    let rule = CostRule::new(WorkCost);
    pool(rt, desk, hands.as_mut_slice(), &gate, clock, &rule);
    take_back(&mut hands, &mut tokens);
    hands.destroy_empty();
    tokens
}

// Opens a desk, has its callers serve the trace's rows while its status is read, and answers the history.
fn serve_at_desk<'a, X: Chooser + Drop + Send, K: Clock + Sync, R: Threads + Wait + Sync>(
    rt: &R,
    alloc: Global,
    order: Order<'a>,
    clock: &K,
    supplies: Supplies<'a>,
) -> Result<Served, PoolFault>
    requires order { IsServable order.trace.now order.options }
    requires supplies { AreSupplies order.trace.now order.options order.times supplies }
    ensures history { IfOk result (λ s.
        IsPoolHistory order.entry.trace.now order.entry.options (history_of s.history.past)
        × HasToldMoments (K.tells clock.now) (history_of s.history.past)) }
    ensures config { IfOk result (λ s.
        s.history.config ≡ pool_config order.entry.trace.now order.entry.options) }
    ensures statuses { IfOk result (λ s. (length s.statuses.items ≡ order.entry.times)
        × AreReadings (pool_config order.entry.trace.now order.entry.options) s.history.past 0 s.statuses.items) }
    ensures fault { IfErr result (λ f. f ≡ faults.NoMemory) }
{
    let Supplies {
        config,
        queues,
        room,
    } = supplies;
    let Room {
        hands,
        statuses,
        readers,
    } = room;
    let rows = order.trace.rows();
    let opened = DeskOf::open_shown(alloc, config, submitters(rows));
    let Ok((desk, reader, submitters, workers)) = opened else {
        hands.destroy_empty();
        readers.destroy_empty();
        return Err(PoolFault::NoMemory);
    };
    let team = Team {
        tokens: Tokens {
            submitters,
            workers,
            readers,
            statuses: Vec::new(alloc),
        },
        queues,
        watcher: Hand::Watch {
            reader,
            left: order.times,
            expected: needed(order.trace, order.options.refresh) as u32,
            seen: statuses,
        },
        hands,
    };
    let tokens = serve_rows::<X, K, R>(rt, &desk, rows, order.options.refresh, clock, team);
    let Tokens {
        submitters,
        workers,
        readers,
        statuses,
    } = tokens;
    let scheduler = desk.finish_shown(submitters, workers, readers).unwrap();
    Ok(Served {
        history: scheduler.into_history(),
        statuses,
    })
}

// Room for `hands` hands and the watcher's, for `times` statuses, and for one reader.
fn make_room<'a>(alloc: Global, hands: u32, times: u32) -> Result<Room<'a>, PoolFault>
    ensures room { IfOk result (HasRoom hands times) }
    ensures fault { IfErr result (λ f. f ≡ faults.NoMemory) }
{
    let statuses = Vec::with_capacity(alloc, times as usize)?;
    let readers = Vec::with_capacity(alloc, 1)?;
    match Vec::with_capacity(alloc, hands as usize + 1) {
        Ok(hands) => Ok(Room {
            hands,
            statuses,
            readers,
        }),
        Err(_) => {
            readers.destroy_empty();
            Err(PoolFault::NoMemory)
        }
    }
}

/// Serves a trace by a pool of threads, one for each submitter and one for each worker, and answers the history of
/// their calls. Rows come when their submitter comes to them: their moments are not used. Only the threads ask the
/// clock, before each call, and labels are the rows' numbers from 0. One more thread reads the scheduler's status
/// `times` times meanwhile, spread over the expected entries, and no other thread waits for it. All memory is taken
/// before the first call, and none where there would be too many entries.
pub fn serve<X: Chooser + Drop + Send, K: Clock + Sync, R: Threads + Wait + Sync>(
    rt: &R,
    alloc: Global,
    trace: &Trace,
    options: RunOptions,
    times: u32,
    clock: &K,
) -> Result<Served, PoolFault>
    requires lawful { IsLawfulTrace trace.now }
    requires options { AreInRange options }
    ensures history { IfOk result (λ s. IsPoolHistory trace.now options (history_of s.history.past)
        × HasToldMoments (K.tells clock.now) (history_of s.history.past)) }
    ensures config { IfOk result (λ s. s.history.config ≡ pool_config trace.now options) }
    ensures statuses { IfOk result (λ s. (length s.statuses.items ≡ times)
        × AreReadings (pool_config trace.now options) s.history.past 0 s.statuses.items) }
    ensures too_many { IsTooLong trace.now options → result ≡ Err (too_long trace.now options) }
    ensures fault { IfErr result (λ f. (f ≡ faults.NoMemory)
        ⊎ ((f ≡ too_long trace.now options) × IsTooLong trace.now options)) }
{
    let entries = needed(trace, options.refresh);
    if entries > MOST_ENTRIES as u64 {
        return Err(PoolFault::TooManyEntries(entries));
    }
    let config = config_of(alloc, trace, options, (entries as u32).max(LEAST_ENTRIES))?;
    let rows = trace.rows();
    let count = submitters(rows);
    let queues = deal(alloc, rows, count)?;
    let room = make_room(alloc, count + options.workers, times)?;
    let order = Order {
        trace,
        options,
        times,
    };
    let supplies = Supplies {
        config,
        queues,
        room,
    };
    serve_at_desk::<X, K, R>(rt, alloc, order, clock, supplies)
}
