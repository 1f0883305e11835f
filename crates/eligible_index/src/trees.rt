//! The two trees of a worker.
ghost use Rattle.std.specs.Prelude.{◌≡◌, ◌<◌, ◌≤◌, All, IfOk, MatchOption, None, length, replicate};
ghost use Rattle.eligible_index.specs.Trees.{empty_trees, cleared, with_noted, Follow, AreExact, StandBut, AllStand, SameSizes, IsMovedOver, IsFirstIn, HaveNoKey};

use crate::keys::{by_finish, is_due, keys_in_trees};
use crate::marked::Marked;
use crate::noted::Noted;
use std::alloc::{AllocError, Global};
use std::marker::Model;
use tag_rules::head_keys::Keys;
use tag_rules::turn::Turn;
use winner_tree::Tree;
use winner_tree::tree::MOST_LEAVES;

/// The trees of one worker, whose leaves are the tenants, and the tenants that are noted: those whose keys have changed
/// since the worker last chose.
#[derive(Drop)]
pub struct WorkerTrees {
    later: Marked,
    eligible: Marked,
    noted: Noted,
}

impl Model for WorkerTrees {
    ghost use Rattle.std.specs.Prelude.{length};
    ghost use Rattle.eligible_index.specs.Trees.{TreesView, AreSized};

    ghost Value = { TreesView };

    ghost view = { λ w. record { later = w.later; eligible = w.eligible; noted = w.noted } };

    ghost invariant = { λ w.
        AreSized (length w.noted) (record { later = w.later; eligible = w.eligible; noted = w.noted }) };
}

impl WorkerTrees {
    /// Trees for `tenants` tenants, none of which has a key or is noted. All memory is taken here.
    pub fn open(alloc: Global, tenants: u32) -> Result<WorkerTrees, AllocError>
        requires some { 1 ≤ tenants }
        requires few { tenants ≤ MOST_LEAVES }
        ensures { IfOk result (λ w. w ≡ empty_trees tenants) }
    {
        Ok(WorkerTrees {
            later: Marked::open(alloc, tenants)?,
            eligible: Marked::open(alloc, tenants)?,
            noted: Noted::open(alloc, tenants)?,
        })
    }

    /// Notes that the keys of the tenant's head have changed.
    pub fn note(&mut self, tenant: u32)
        requires { tenant < length self.old.noted }
        ensures { self.new ≡ with_noted self.old tenant }
    {
        self.noted.note(tenant);
    }

    /// Takes all keys out of the trees, of which each has `tenants` leaves, and notes every tenant.
    pub fn restart(&mut self, tenants: u32)
        requires { tenants ≡ length self.old.noted }
        ensures { self.new ≡ cleared tenants }
    {
        clear(&mut self.later, tenants);
        clear(&mut self.eligible, tenants);
        self.noted.note_all(tenants);
    }

    /// Brings the trees up to date for a choice of the worker.
    pub fn catch_up(&mut self, at: Turn, table: &[Option<Keys>])
        requires { Follow at table.now self.old }
        ensures follow { Follow at table.now self.new }
        ensures exact { AreExact at table.now self.new.later self.new.eligible }
    {
        renew(
            at,
            table,
            self.noted.numbers(),
            &mut self.later,
            &mut self.eligible,
        );
        self.noted.clear();
        move_over(at, &mut self.later, &mut self.eligible);
    }

    /// The tenant that the trees put first.
    pub fn first(&self) -> Option<u32>
        ensures { MatchOption result (HaveNoKey self.now) (IsFirstIn self.now) }
    {
        if let Some((tenant, _)) = self.eligible.first() {
            return Some(tenant);
        }
        let (tenant, _) = self.later.first()?;
        Some(tenant)
    }

    /// The heads that are not eligible, by eligible key, then by finish, then by number.
    pub fn later(&self) -> &Tree
        ensures { result.now ≡ self.now.later }
    {
        self.later.tree()
    }

    /// The eligible heads, by finish, then by number.
    pub fn eligible(&self) -> &Tree
        ensures { result.now ≡ self.now.eligible }
    {
        self.eligible.tree()
    }
}

// Puts the heads of these tenants to where the table says.
fn renew(
    at: Turn,
    table: &[Option<Keys>],
    tenants: &[u32],
    later: &mut Marked,
    eligible: &mut Marked,
)
    requires known { All (λ t. t < length table.now) tenants.now }
    requires sized { (length later.old ≡ length table.now) × (length eligible.old ≡ length table.now) }
    requires others { StandBut at table.now tenants.now later.old eligible.old }
    ensures same { SameSizes later.old eligible.old later.new eligible.new }
    ensures stand { AllStand at table.now later.new eligible.new }
{
    for tenant in tenants.iter() {
        let (not_yet, by_now) = keys_in_trees(at, table[*tenant as usize]);
        later.set(*tenant, not_yet);
        eligible.set(*tenant, by_now);
    }
}

// Moves the heads that have become eligible over to the second tree.
fn move_over(at: Turn, later: &mut Marked, eligible: &mut Marked)
    requires { length eligible.old ≡ length later.old }
    ensures same { SameSizes later.old eligible.old later.new eligible.new }
    ensures moved { IsMovedOver at later.old eligible.old later.new eligible.new }
{
    'over: while let Some((tenant, key)) = later.first() {
        if !is_due(at, key) {
            return;
        }
        later.set(tenant, None);
        eligible.set(tenant, Some(by_finish(key)));
    }
}

// Takes all keys out of a tree of `leaves` leaves.
fn clear(tree: &mut Marked, leaves: u32)
    requires { length tree.old ≡ leaves }
    ensures { tree.new ≡ replicate leaves None }
{
    for leaf in 0..leaves {
        tree.set(leaf, None);
    }
}
