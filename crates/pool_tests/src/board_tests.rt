//! The board of a desk: read on one thread, and beside one that makes calls.
ghost use Rattle.std.specs.Prelude.{◌≡◌, option_map};
ghost use Rattle.std.specs.Arc.{arc_value};
ghost use Rattle.history_lock.specs.Passes.{IsOf};
ghost use Rattle.status_board.specs.Boards.{IsReaderOf};
ghost use Rattle.pool_tests.specs.Watched.{IsReaderAt};

use crate::samples::{configured, expect_true, one, only, two};
use desk::{Desk, Running, Submitter, Took, Worker};
use eligible_index::index::IndexChooser;
use fq_model::parts::Status;
use status_board::{Board, Reader};
use std::alloc::Global;
use std::process::Abort;
use std::sync::Wait;
use std::thread::{Threads, join_mut, yield_now};
use tag_rules::chooser::Chooser;

// How many requests come while a reader watches.
const REQUESTS: u64 = 2000;

// How often a reader looks at most.
const LOOKS: u32 = 20000000;

/// A desk of one submitter and one worker that shows its past, and a reader.
pub fn opened<X: Chooser + Drop, R: Abort>(
    rt: &R,
    alloc: Global,
    requests: u32,
) -> (Desk<u64, X>, Reader, Submitter, Worker)
    ensures reader { IsReaderAt result.0.lock (option_map arc_value result.0.board) result.1 }
    ensures submitter { IsOf result.0.lock result.2.pass × (result.2.pass.number ≡ 0) }
    ensures worker { IsOf result.0.lock result.3.pass }
{
    let config = configured(rt, alloc, 1, 1, 20000, requests);
    let opened = Desk::<u64, X>::open_shown(alloc, config, 1);
    let Ok((desk, reader, submitters, workers)) = opened else {
        panic!(rt; "no memory for a desk")
    };
    (desk, reader, only(rt, submitters), only(rt, workers))
}

// Ends it with two readers.
fn ended<X: Chooser + Drop, R: Abort>(
    rt: &R,
    alloc: Global,
    desk: Desk<u64, X>,
    who: Submitter,
    worker: Worker,
    first: Reader,
    second: Reader,
)
    requires first { IsReaderAt desk.lock (option_map arc_value desk.board) first }
    requires second { IsReaderAt desk.lock (option_map arc_value desk.board) second }
    requires submitter { IsOf desk.lock who.pass × (who.pass.number ≡ 0) }
    requires worker { IsOf desk.lock worker.pass }
{
    let readers = two(rt, alloc, first, second);
    let scheduler = desk
        .finish_shown(one(rt, alloc, who), one(rt, alloc, worker), readers)
        .expect(rt, "each turn was served");
    drop(scheduler);
}

// A reader's answer.
fn read<X: Chooser, R: Abort>(rt: &R, desk: &Desk<u64, X>, reader: &mut Reader) -> Status
    requires { IsReaderAt desk.now.lock (option_map arc_value desk.now.board) reader.old }
    ensures { IsReaderAt desk.now.lock (option_map arc_value desk.now.board) reader.new }
{
    let board = desk.board().expect(rt, "a board");
    reader.read(board)
}

// Another reader.
fn another<X: Chooser, R: Abort>(rt: &R, desk: &Desk<u64, X>, reader: &mut Reader) -> Reader
    requires { IsReaderAt desk.now.lock (option_map arc_value desk.now.board) reader.old }
    ensures same { reader.new ≡ reader.old }
    ensures second { IsReaderAt desk.now.lock (option_map arc_value desk.now.board) result }
{
    let board = desk.board().expect(rt, "a board");
    board.second(reader).expect(rt, "memory for a reader")
}

/// Whether these are the numbers of a status.
pub fn tells(
    status: Status,
    entries: u64,
    moment: u64,
    vtime: i128,
    waiting: u32,
    running: u32,
) -> bool {
    status.entries == entries
        && status.moment == moment
        && status.vtime == vtime
        && status.waiting == waiting
        && status.running == running
}

// The status that the reader reads has these numbers.
fn expect_told<X: Chooser, R: Abort>(
    rt: &R,
    desk: &Desk<u64, X>,
    reader: &mut Reader,
    wanted: (u64, u64, i128, u32, u32),
)
    requires { IsReaderAt desk.now.lock (option_map arc_value desk.now.board) reader.old }
    ensures { IsReaderAt desk.now.lock (option_map arc_value desk.now.board) reader.new }
{
    let status = read(rt, desk, reader);
    let (entries, moment, vtime, waiting, running) = wanted;
    expect_true(rt, tells(status, entries, moment, vtime, waiting, running));
}

// Takes the request that waits, at 5.
fn taken<X: Chooser, R: Wait + Abort>(rt: &R, desk: &Desk<u64, X>, worker: Worker) -> Running
    requires { IsOf desk.now.lock worker.pass }
    ensures { IsOf desk.now.lock result.pass }
{
    let took = desk.take(rt, worker, 5);
    let Took::Run(running, _job) = took else {
        panic!(rt; "a request waits")
    };
    running
}

// Ends it at 10.
fn done<X: Chooser, R: Wait + Abort>(rt: &R, desk: &Desk<u64, X>, running: Running) -> Worker
    requires { IsOf desk.now.lock running.pass }
    ensures { IsOf desk.now.lock result.pass }
{
    let done = desk.done(rt, running, 10, 5);
    let Ok(worker) = done else {
        panic!(rt; "a cost that is not below the last use")
    };
    worker
}

// One request from its coming to its end, with a look after each entry, and another reader's at the end.
fn one_request<X: Chooser + Drop, R: Wait + Abort>(rt: &R, alloc: Global) {
    let (desk, mut reader, mut who, worker) = opened::<X, R>(rt, alloc, 10);
    expect_told(rt, &desk, &mut reader, (0, 0, 0, 0, 0));
    expect_true(rt, desk.submit(rt, &mut who, 5, 0, 0, 5, 7).is_ok());
    expect_told(rt, &desk, &mut reader, (1, 5, 0, 1, 0));
    let running = taken(rt, &desk, worker);
    expect_told(rt, &desk, &mut reader, (2, 5, 0, 0, 1));
    let worker = done(rt, &desk, running);
    expect_told(rt, &desk, &mut reader, (3, 10, 5242880, 0, 0));
    let mut second = another(rt, &desk, &mut reader);
    expect_told(rt, &desk, &mut second, (3, 10, 5242880, 0, 0));
    ended(rt, alloc, desk, who, worker, reader, second);
}

#[test]
fn one_request_is_watched(rt: HostRuntime) {
    one_request::<IndexChooser, HostRuntime>(&rt, rt.alloc());
}

// Submits requests at 5, and says whether all were accepted.
fn submits<X: Chooser, R: Wait>(rt: &R, desk: &Desk<u64, X>, who: &mut Submitter) -> bool
    requires { IsOf desk.now.lock who.old.pass }
    ensures own { IsOf desk.now.lock who.new.pass }
    ensures number { who.new.pass.number ≡ who.old.pass.number }
{
    for job in 0..REQUESTS {
        if desk.submit(rt, who, 5, 0, 0, 5, job).is_err() {
            return false;
        }
    }
    true
}

// Reads until all requests have come. Whether no status has fewer entries than the status before, or is of two moments.
fn watches(board: &Board, reader: &mut Reader) -> bool
    requires { IsReaderOf board.now reader.old }
    ensures { IsReaderOf board.now reader.new }
{
    let mut before = 0;
    for _look in 0..LOOKS {
        let status = reader.read(board);
        if status.entries < before || status.entries != status.waiting as u64 {
            return false;
        }
        before = status.entries;
        if before == REQUESTS {
            return true;
        }
        yield_now();
    }
    false
}

// Submits and reads at once.
fn side_by_side<X: Chooser + Send, R: Threads + Wait + Sync>(
    rt: &R,
    desk: &Desk<u64, X>,
    board: &Board,
    who: &mut Submitter,
    reader: &mut Reader,
) -> (bool, bool)
    requires who { IsOf desk.now.lock who.old.pass }
    requires reader { IsReaderOf board.now reader.old }
    ensures own { IsOf desk.now.lock who.new.pass }
    ensures number { who.new.pass.number ≡ who.old.pass.number }
    ensures reader { IsReaderOf board.now reader.new }
{
    join_mut(
        rt,
        &mut || submits(rt, desk, who),
        &mut || watches(board, reader),
    )
}

// One reader looks beside the submitter, and another once all have come.
fn beside<X: Chooser + Drop + Send, R: Threads + Wait + Sync + Abort>(rt: &R, alloc: Global) {
    let (desk, mut reader, mut who, worker) = opened::<X, R>(rt, alloc, 2000);
    let mut second = another(rt, &desk, &mut reader);
    let board = desk.board().expect(rt, "a board");
    let (accepted, seen) = side_by_side(rt, &desk, board, &mut who, &mut reader);
    expect_true(rt, accepted);
    expect_true(rt, seen);
    expect_told(rt, &desk, &mut second, (REQUESTS, 5, 0, 2000, 0));
    ended(rt, alloc, desk, who, worker, reader, second);
}

#[test]
fn a_reader_beside_a_submitter(rt: HostRuntime) {
    beside::<IndexChooser, HostRuntime>(&rt, rt.alloc());
}
