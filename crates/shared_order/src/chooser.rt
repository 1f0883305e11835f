//! A chooser over one order of heads.
ghost use Rattle.std.specs.Prelude.{◌≡◌, ◌≢◌, ◌<◌, length, IfSome, MatchOption};
ghost use Rattle.std.specs.List.{All, Contains};
ghost use Rattle.tag_rules.specs.Keys.{IsInRange};
ghost use Rattle.shared_order.specs.Heads.{head_of, Gains};

use crate::head::Head;
use crate::order::Order;
use crate::outlook::outlook;
use crate::search::choice;
use fq_model::config::{Checked, Policy};
use std::alloc::{AllocError, Global};
use std::marker::Model;
use tag_rules::chooser::Chooser;
use tag_rules::foresees::{ForeseenChoice, Foresees};
use tag_rules::head_keys::Keys;
use tag_rules::turn::Turn;

/// Keeps the heads in one order for all workers. A change of one tenant's keys costs the search of its block and the
/// moves within it, whatever the number of workers; a choice looks at groups of blocks in order, and into few of them.
#[derive(Drop)]
pub struct SharedChooser {
    policy: Policy,
    // The most that there can be: the number of the configuration.
    most_workers: u32,
    workers: u32,
    table: Vec<Option<Keys>>,
    order: Order,
    latest: i128,
}

impl Model for SharedChooser {
    ghost use Rattle.std.specs.Prelude.{length};
    ghost use Rattle.tag_rules.specs.Tables.{ChooserView};

    ghost Value = { ChooserView };

    ghost use Rattle.shared_order.specs.Mirrors.{KeepsChooser};

    ghost view = { λ c. record {
      setting = record {
        policy = c.policy;
        most_workers = c.most_workers;
        workers = c.workers;
        tenants = length c.table.items;
      };
      table = c.table.items;
      latest = c.latest;
    } };

    ghost invariant = { λ c. KeepsChooser c.table.items c.order c.latest };
}

impl Chooser for SharedChooser {
    ghost seen = { λ c. c };

    fn open(alloc: Global, config: &Checked) -> Result<Self, AllocError> {
        let table = vec![in alloc; None; config.tenants() as usize]?;
        let order = Order::open(alloc, config.tenants())?;
        Ok(SharedChooser {
            policy: config.policy(),
            most_workers: config.workers(),
            workers: config.workers(),
            table,
            order,
            latest: 0,
        })
    }

    fn set(&mut self, tenant: u32, keys: Option<Keys>) {
        let older = self.table[tenant as usize];
        if older == keys {
            return;
        }
        take_out(&mut self.order, tenant, &older);
        put_in(&mut self.order, tenant, &keys);
        self.table[tenant as usize] = keys;
    }

    fn resize(&mut self, workers: u32) {
        self.workers = workers;
    }

    fn choose(&mut self, worker: u32, v: i128) -> Option<u32> {
        self.latest = v;
        let turn = Turn {
            policy: self.policy,
            workers: self.workers,
            worker,
            virtual_time: v,
        };
        let head = choice(turn, &self.order)?;
        Some(head.tenant)
    }
}

impl Foresees for SharedChooser {
    /// Looks at the heads as a choice does, and then at those of the first blocks for a small one.
    fn foresee(&self, worker: u32, v: i128, below: u64, weights: &[u32]) -> Option<ForeseenChoice> {
        let turn = Turn {
            policy: self.policy,
            workers: self.workers,
            worker,
            virtual_time: v,
        };
        outlook(turn, &self.order, below, weights)
    }
}

// Takes out the head of a tenant that had these keys, if it had any.
fn take_out(order: &mut Order, tenant: u32, keys: &Option<Keys>)
    requires { IfSome keys.now (λ k. Contains order.old.heads (head_of tenant k)) }
    ensures heads { MatchOption keys.now (order.new.heads ≡ order.old.heads)
        (λ k. Gains order.new.heads (head_of tenant k) order.old.heads) }
    ensures room { order.new.room ≡ order.old.room }
{
    if let Some(keys) = keys {
        order.remove(Head::of(tenant, *keys));
    }
}

// Puts in the head of a tenant that has these keys, if it has any.
fn put_in(order: &mut Order, tenant: u32, keys: &Option<Keys>)
    requires room { IfSome keys.now (λ k. length order.old.heads < order.old.room) }
    requires new_request { IfSome keys.now (λ k. All (λ h. h.request ≢ k.request) order.old.heads) }
    ensures heads { MatchOption keys.now (order.new.heads ≡ order.old.heads)
        (λ k. Gains order.old.heads (head_of tenant k) order.new.heads) }
    ensures room { order.new.room ≡ order.old.room }
    ensures in_range { IfSome keys.now (λ k. IsInRange k.start k.len) }
{
    if let Some(keys) = keys {
        order.insert(Head::of(tenant, *keys));
    }
}
