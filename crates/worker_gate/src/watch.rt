//! How a watcher reads the status of a desk from its board, without the desk's lock.
ghost use Rattle.std.specs.Prelude.{◌≡◌, ◌≤◌, ◌<◌, ◌+◌, ◌*◌, ◌/◌, length, vec_capacity, IfSome};
ghost use Rattle.status_board.specs.Boards.{IsReaderOf};
ghost use Rattle.worker_gate.specs.Watching.{Watched};

use fq_model::parts::Status;
use status_board::{Board, Reader};
use std::thread::yield_now;

// The number of times that a watcher yields while no entry comes.
const PATIENCE: u32 = 200000;

// Yields until the board shows more than `shown` entries. Answers their number, if entries came.
fn grown(board: &Board, reader: &mut Reader, shown: u64) -> Option<u64>
    requires own { IsReaderOf board.now reader.old }
    ensures same { reader.new ≡ reader.old }
    ensures more { IfSome result (λ n. shown < n) }
{
    for _ in 0..PATIENCE {
        yield_now();
        let now = reader.shown(board);
        if now > shown {
            return Some(now);
        }
    }
    None
}

// Yields until the board shows `due` entries. Where no entry comes `waits` is cleared, and later calls return at once.
fn await_entries(board: &Board, reader: &mut Reader, due: u64, waits: &mut bool)
    requires own { IsReaderOf board.now reader.old }
    ensures same { reader.new ≡ reader.old }
{
    if !*waits {
        return;
    }
    let mut shown = reader.shown(board);
    while shown < due {
        let Some(now) = grown(board, reader, shown) else {
            *waits = false;
            return;
        };
        shown = now;
    }
}

// The number of entries that the board is to show before the next read, after `done` of `times` reads.
fn due(expected: u32, done: u32, times: u32) -> u64
    requires some { 0 < times }
    ensures { result ≡ expected * done / times }
{
    expected as u64 * done as u64 / times as u64
}

// Reads the status `left` times, spread over the expected entries.
pub(crate) fn watch(
    board: &Board,
    reader: &mut Reader,
    left: &mut u32,
    expected: u32,
    seen: &mut Vec<Status>,
)
    requires own { IsReaderOf board.now reader.old }
    requires room { length seen.old.items + left.old ≤ vec_capacity seen.old }
    ensures watched { Watched board.now left.old reader.old reader.new seen.old.items seen.new.items }
    ensures none_left { left.new ≡ 0 }
{
    let times = *left;
    let mut waits = true;
    while *left > 0 {
        await_entries(
            board,
            reader,
            due(expected, times - *left, times),
            &mut waits,
        );
        let status = reader.read(board);
        seen.push_reserved(status);
        *left -= 1;
    }
}
