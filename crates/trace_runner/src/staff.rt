//! The request that each worker serves, and the worker whose next entry comes first.
ghost use Rattle.std.specs.Prelude.{◌≡◌, ◌<◌, ◌≤◌, None, IfOk, IfSome, MatchOption, length, replicate, slice_set};
ghost use Rattle.trace_runner.specs.Staff.{busy_key, idle_key, new_work, reported_work, work_key, work_moment, IsSmall};
ghost use Rattle.trace_runner.specs.Staff.{NoneWorks, NoneIdle, IsFirstWork, IsFirstIdle};

use fq_model::limits::{GREATEST_COST, TEXT_WORKERS};
use std::alloc::{AllocError, Global};
use std::marker::Model;
use winner_tree::{Key, Tree};

/// The work of a worker: the start, the cost and the next use of its request, in microseconds.
#[derive(Clone, Copy)]
pub struct Work {
    /// The moment of the Take.
    pub start: u64,
    pub cost: u64,
    /// How much is used at the next entry, which is a Report below the cost, and the Done at it.
    pub due: u64,
}

impl Work {
    /// The work of a worker that takes a request of this cost. Its use is reported after each `refresh` microseconds,
    /// or not at all where that is 0.
    pub fn new(start: u64, cost: u64, refresh: u64) -> Work
        ensures { result ≡ new_work start cost refresh }
    {
        let due = if refresh == 0 {
            cost
        } else {
            refresh.min(cost)
        };
        Work { start, cost, due }
    }

    /// The work after its Report.
    pub fn after_report(&self, refresh: u64) -> Work
        requires used { self.now.due ≤ GREATEST_COST }
        requires refresh { refresh ≤ GREATEST_COST }
        ensures { result ≡ reported_work self.now refresh }
    {
        Work {
            start: self.start,
            cost: self.cost,
            due: (self.due + refresh).min(self.cost),
        }
    }

    /// The moment of the next entry.
    pub fn moment(&self) -> u64
        requires { IsSmall self.now }
        ensures { result ≡ work_moment self.now }
    {
        self.start + self.due
    }

    // By moment, and at one moment Reports before Dones.
    fn key(&self) -> Key
        requires { IsSmall self.now }
        ensures { result ≡ work_key self.now }
    {
        Key {
            a: self.moment() as i128,
            b: if self.due == self.cost { 1 } else { 0 },
            c: 0,
        }
    }
}

// The key of a worker that serves a request.
fn busy_key(work: Option<Work>) -> Option<Key>
    requires { IfSome work IsSmall }
    ensures { result ≡ busy_key work }
{
    match work {
        Some(work) => Some(work.key()),
        None => None,
    }
}

// The key of an idle worker: idle workers differ by their numbers alone.
fn idle_key(work: Option<Work>) -> Option<Key>
    ensures { result ≡ idle_key work }
{
    match work {
        Some(_) => None,
        None => Some(Key { a: 0, b: 0, c: 0 }),
    }
}

/// The workers, by number. Contracts see the list of their works.
#[derive(Drop)]
pub struct Staff {
    works: Vec<Option<Work>>,
    // The workers that serve a request, by its next entry.
    busy: Tree,
    idle: Tree,
}

impl Model for Staff {
    ghost use Rattle.std.specs.Prelude.{List, Option};
    ghost use Rattle.trace_runner.specs.declared.staff.Work.{Work};
    ghost use Rattle.trace_runner.specs.Staff.{KeepsStaff};

    ghost Value = { List (Option Work) };

    ghost view = { λ s. s.works.items };

    ghost invariant = { λ s. KeepsStaff s.works.items s.busy s.idle };
}

impl Staff {
    /// This number of workers, all of them idle.
    pub fn open(alloc: Global, workers: u32) -> Result<Staff, AllocError>
        requires some { 1 ≤ workers }
        requires few { workers ≤ TEXT_WORKERS }
        ensures opened { IfOk result (λ s. s ≡ replicate workers None) }
    {
        let works = vec![in alloc; None; workers as usize]?;
        let busy = Tree::open(alloc, workers)?;
        let mut idle = Tree::open(alloc, workers)?;
        for worker in 0..workers {
            idle.set(worker, idle_key(None));
        }
        Ok(Staff { works, busy, idle })
    }

    /// From here on the worker serves this.
    pub fn set(&mut self, worker: u32, work: Option<Work>)
        requires worker { worker < length self.old }
        requires small { IfSome work IsSmall }
        ensures { self.new ≡ slice_set self.old worker work }
    {
        self.works[worker as usize] = work;
        self.busy.set(worker, busy_key(work));
        self.idle.set(worker, idle_key(work));
    }

    /// The worker of which the next entry comes first: by moment, at one moment Reports before Dones, and in each of
    /// these by worker.
    pub fn first_work(&self) -> Option<(u32, Work)>
        ensures { MatchOption result (NoneWorks self.now) (λ e. IsFirstWork self.now e.0 e.1) }
    {
        let (worker, _) = self.busy.first()?;
        let work = self.works[worker as usize]?;
        Some((worker, work))
    }

    /// The idle worker with the least number.
    pub fn first_idle(&self) -> Option<u32>
        ensures { MatchOption result (NoneIdle self.now) (IsFirstIdle self.now) }
    {
        let (worker, _) = self.idle.first()?;
        Some(worker)
    }
}
