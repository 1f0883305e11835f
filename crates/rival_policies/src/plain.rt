//! A chooser that goes through all keys.
ghost use Rattle.std.specs.Prelude.{◌≡◌, ◌<◌, length};
ghost use Rattle.tag_rules.specs.Tables.{turn_of};

use fq_model::config::{Checked, Policy};
use std::alloc::{AllocError, Global};
use std::marker::Model;
use tag_rules::chooser::Chooser;
use tag_rules::foresees::{ForeseenChoice, Foresees, foreseen_in};
use tag_rules::head_keys::Keys;
use tag_rules::scan::choice_in;
use tag_rules::turn::Turn;

/// Keeps the keys by tenant, and looks at each at a choice.
#[derive(Drop)]
pub struct PlainChooser {
    policy: Policy,
    // The most that there can be: the number of the configuration.
    most_workers: u32,
    workers: u32,
    table: Vec<Option<Keys>>,
    latest: i128,
}

impl Model for PlainChooser {
    ghost use Rattle.std.specs.Prelude.{◌≤◌, length};
    ghost use Rattle.fq_model.specs.declared.limits.TheConstants.{MOST_TENANTS};
    ghost use Rattle.tag_rules.specs.Tables.{ChooserView, RequestsDiffer};

    ghost Value = { ChooserView };

    ghost view = { λ c. record {
      setting = record {
        policy = c.policy;
        most_workers = c.most_workers;
        workers = c.workers;
        tenants = length c.table.items;
      };
      table = c.table.items;
      latest = c.latest;
    } };

    ghost invariant = { λ c. (length c.table.items ≤ MOST_TENANTS) × RequestsDiffer c.table.items };
}

impl Chooser for PlainChooser {
    ghost seen = { λ c. c };

    fn open(alloc: Global, config: &Checked) -> Result<Self, AllocError> {
        let table = vec![in alloc; None; config.tenants() as usize]?;
        Ok(PlainChooser {
            policy: config.policy(),
            most_workers: config.workers(),
            workers: config.workers(),
            table,
            latest: 0,
        })
    }

    fn set(&mut self, tenant: u32, keys: Option<Keys>) {
        self.table[tenant as usize] = keys;
    }

    fn resize(&mut self, workers: u32) {
        self.workers = workers;
    }

    fn choose(&mut self, worker: u32, v: i128) -> Option<u32> {
        self.latest = v;
        let found = choice_in(self.turn(worker, v), &self.table)?;
        Some(found.tenant)
    }
}

impl Foresees for PlainChooser {
    fn foresee(&self, worker: u32, v: i128, below: u64, weights: &[u32]) -> Option<ForeseenChoice> {
        foreseen_in(self.turn(worker, v), &self.table, below, weights)
    }
}

impl PlainChooser {
    // Where a worker chooses at this virtual time, in steps.
    fn turn(&self, worker: u32, v: i128) -> Turn
        requires { worker < self.now.setting.workers }
        ensures { result ≡ turn_of self.now.setting worker v }
    {
        Turn {
            policy: self.policy,
            workers: self.workers,
            worker,
            virtual_time: v,
        }
    }
}
