//! A chooser that keeps trees.
ghost use Rattle.std.specs.Prelude.{◌≡◌, ◌<◌, ◌≤◌, ◌≤ℤ◌, All, IfOk, IfSome, IfNone, length, replicate};
ghost use Rattle.tag_rules.specs.Tables.{asked_at, NoneHas, IsTableChoice};
ghost use Rattle.eligible_index.specs.Trees.{empty_trees};
ghost use Rattle.eligible_index.specs.Index.{trees_of, IsExactFor, AreNoted, AreCleared};

use crate::trees::WorkerTrees;
use fq_model::config::{Checked, Policy};
use std::alloc::{AllocError, Global};
use std::marker::Model;
use tag_rules::chooser::Chooser;
use tag_rules::foresees::{ForeseenChoice, Foresees, foreseen_in};
use tag_rules::head_keys::Keys;
use tag_rules::turn::Turn;
use winner_tree::Tree;
use winner_tree::tree::MOST_LEAVES;

/// Keeps the keys by tenant, and two trees a worker. A change of a tenant's keys costs a note a worker; a choice costs
/// the paths of the tenants that were noted since the worker's last choice, or that have become eligible since.
#[derive(Drop)]
pub struct IndexChooser {
    policy: Policy,
    workers: u32,
    table: Vec<Option<Keys>>,
    latest: i128,
    // As many as there can be workers.
    trees: Vec<WorkerTrees>,
}

impl Model for IndexChooser {
    ghost use Rattle.std.specs.Prelude.{length};
    ghost use Rattle.eligible_index.specs.Index.{IndexView, KeepsIndex};

    ghost Value = { IndexView };

    ghost view = { λ c. record {
      chooser = record {
        setting = record {
          policy = c.policy;
          most_workers = length c.trees.items;
          workers = c.workers;
          tenants = length c.table.items;
        };
        table = c.table.items;
        latest = c.latest;
      };
      trees = c.trees.items;
    } };

    ghost invariant = { λ c. KeepsIndex c.policy c.workers c.table.items c.latest c.trees.items };
}

impl Chooser for IndexChooser {
    ghost seen = { λ c. c.chooser };

    fn open(alloc: Global, config: &Checked) -> Result<Self, AllocError> {
        let table = vec![in alloc; None; config.tenants() as usize]?;
        let trees = open_trees(alloc, config.workers(), config.tenants())?;
        Ok(IndexChooser {
            policy: config.policy(),
            workers: config.workers(),
            table,
            latest: 0,
            trees,
        })
    }

    fn set(&mut self, tenant: u32, keys: Option<Keys>) {
        if self.table[tenant as usize] == keys {
            return;
        }
        self.table[tenant as usize] = keys;
        note_for_all(&mut self.trees, tenant);
    }

    fn resize(&mut self, workers: u32) {
        self.workers = workers;
        restart_all(&mut self.trees, self.table.len() as u32);
    }

    fn choose(&mut self, worker: u32, v: i128) -> Option<u32>
        requires worker { worker < self.old.chooser.setting.workers }
        requires not_back { self.old.chooser.latest ≤ℤ v }
        ensures chosen { IfSome result (IsTableChoice self.old.chooser.setting self.old.chooser.table worker v) }
        ensures none { IfNone result (NoneHas self.old.chooser.table) }
        ensures seen { self.new.chooser ≡ asked_at self.old.chooser v }
        ensures exact { IsExactFor self.new worker v }
    {
        self.latest = v;
        let turn = Turn {
            policy: self.policy,
            workers: self.workers,
            worker,
            virtual_time: v,
        };
        let trees = &mut self.trees[worker as usize];
        trees.catch_up(turn, &self.table);
        trees.first()
    }
}

impl Foresees for IndexChooser {
    /// The trees are brought up to date at a choice alone, so this looks at the keys of each tenant.
    fn foresee(&self, worker: u32, v: i128, below: u64, weights: &[u32]) -> Option<ForeseenChoice> {
        let turn = Turn {
            policy: self.policy,
            workers: self.workers,
            worker,
            virtual_time: v,
        };
        foreseen_in(turn, &self.table, below, weights)
    }
}

impl IndexChooser {
    /// The worker's tree of heads that are not eligible for it, by eligible key, then by finish, then by number. It is
    /// right for the worker's last choice, as long as no keys have changed since and the workers are as many.
    pub fn later(&self, worker: u32) -> &Tree
        requires { worker < self.now.chooser.setting.most_workers }
        ensures { result.now ≡ (trees_of self.now.trees worker).later }
    {
        self.trees[worker as usize].later()
    }

    /// The worker's tree of eligible heads, by finish, then by number; right as the other is.
    pub fn eligible(&self, worker: u32) -> &Tree
        requires { worker < self.now.chooser.setting.most_workers }
        ensures { result.now ≡ (trees_of self.now.trees worker).eligible }
    {
        self.trees[worker as usize].eligible()
    }
}

// Trees for each of `workers` workers, with `tenants` tenants as leaves.
fn open_trees(alloc: Global, workers: u32, tenants: u32) -> Result<Vec<WorkerTrees>, AllocError>
    requires some { 1 ≤ tenants }
    requires few { tenants ≤ MOST_LEAVES }
    ensures { IfOk result (λ trees. trees.items ≡ replicate workers (empty_trees tenants)) }
{
    let mut trees = Vec::with_capacity(alloc, workers as usize)?;
    for _ in 0..workers {
        trees.push_reserved(WorkerTrees::open(alloc, tenants)?);
    }
    Ok(trees)
}

// Notes the tenant for each worker.
fn note_for_all(trees: &mut [WorkerTrees], tenant: u32)
    requires { All (λ w. tenant < length w.noted) trees.old }
    ensures { AreNoted tenant trees.old trees.new }
{
    for worker in 0..trees.len() {
        trees[worker].note(tenant);
    }
}

// Takes all keys out of all trees.
fn restart_all(trees: &mut [WorkerTrees], tenants: u32)
    requires { All (λ w. tenants ≡ length w.noted) trees.old }
    ensures { AreCleared tenants trees.old trees.new }
{
    for worker in 0..trees.len() {
        trees[worker].restart(tenants);
    }
}
