//! The table.
ghost use Rattle.std.specs.Prelude.{◌≡◌, ◌≢◌, ◌<◌, ◌≤◌, IfNone, IfOk, IfSome, None, Some, length, option_copied, replicate, slice_set};
ghost use Rattle.worker_table.specs.Kept.{AreWords};
ghost use Rattle.worker_table.specs.Table.{IsFree, IsNextFree, NoneIsFree, run_of, running};

use crate::bits::{first_bit, with_bit, without_bit};
use std::alloc::{AllocError, Global};
use std::marker::Model;

/// What each worker runs, by the worker's number. The free workers are found 64 at a time. All memory is taken at
/// opening. Contracts see a list by worker.
#[derive(Drop)]
pub struct WorkerTable<R> {
    runs: Vec<Option<R>>,
    free: Vec<u64>,
    running: u32,
}

impl<R> Model for WorkerTable<R> {
    ghost use Rattle.std.specs.Prelude.{List, Option};
    ghost use Rattle.worker_table.specs.Kept.{Keeps};

    ghost Value = { List (Option R) };

    ghost view = { λ t. t.runs.items };

    ghost invariant = { λ t. Keeps t.runs.items t.free.items t.running };
}

impl<R: Copy> WorkerTable<R> {
    /// A table of up to 4,096 workers, all free.
    pub fn open(alloc: Global, workers: u32) -> Result<WorkerTable<R>, AllocError>
        requires { workers ≤ 4096 }
        ensures { IfOk result (λ t. t ≡ replicate workers None) }
    {
        let runs = vec![in alloc; None; workers as usize]?;
        let free = vec![in alloc; u64::MAX; (workers as usize).div_ceil(64)]?;
        Ok(WorkerTable {
            runs,
            free,
            running: 0,
        })
    }

    /// What a worker runs. A number that no worker has runs nothing.
    pub fn run_of(&self, worker: u32) -> Option<R>
        ensures { result ≡ run_of self.now worker }
    {
        *self.runs.get(worker as usize)?
    }

    /// A free worker runs this from now on.
    pub fn start(&mut self, worker: u32, run: R)
        requires { IsFree self.old worker }
        ensures { self.new ≡ slice_set self.old worker (Some run) }
    {
        let word = worker as usize / 64;
        self.runs[worker as usize] = Some(run);
        self.free[word] = without_bit(self.free[word], worker % 64);
        self.running += 1;
    }

    /// A worker that runs something runs this instead.
    pub fn change(&mut self, worker: u32, run: R)
        requires { run_of self.old worker ≢ None }
        ensures { self.new ≡ slice_set self.old worker (Some run) }
    {
        self.runs[worker as usize] = Some(run);
    }

    /// A worker runs nothing any more. Gives what it ran.
    pub fn end(&mut self, worker: u32) -> Option<R>
        ensures run { result ≡ run_of self.old worker }
        ensures ended { self.new ≡ slice_set self.old worker None }
    {
        let run = self.run_of(worker)?;
        let word = worker as usize / 64;
        self.runs[worker as usize] = None;
        self.free[word] = with_bit(self.free[word], worker % 64);
        self.running -= 1;
        Some(run)
    }

    /// The free worker of the least number from `from` on and below `below`.
    pub fn next_free(&self, from: u32, below: u32) -> Option<u32>
        requires { below ≤ length self.now }
        ensures some { IfSome result (IsNextFree self.now from below) }
        ensures none { IfNone result (NoneIsFree self.now from below) }
    {
        let mut from = from;
        'words: while from < below {
            if let Some(bit) = first_bit(self.free[from as usize / 64], from % 64) {
                let worker = from - from % 64 + bit;
                return if worker < below { Some(worker) } else { None };
            }
            from = from - from % 64 + 64;
        }
        None
    }

    /// How many workers run something.
    pub fn running(&self) -> u32
        ensures value { result ≡ running self.now }
        ensures few { result ≤ length self.now }
    {
        self.running
    }

    /// How many workers there are.
    pub fn len(&self) -> u32
        ensures { result ≡ length self.now }
    {
        self.runs.len() as u32
    }
}
