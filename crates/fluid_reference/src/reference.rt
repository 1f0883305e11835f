//! The fluid service of tenants by the end of each slot.
ghost use Rattle.std.specs.Prelude.{◌≡◌, ◌<◌, length, IfOk, ℕ};
ghost use Rattle.fluid_reference.specs.Slots.{CanReplay, column_of, replayed_table, slot_at};

use crate::replaying::replay;
use fq_model::config::Checked;
use fq_model::fluid::{Change, FluidRow};
use fq_model::level::Level;
use std::alloc::{AllocError, Global};
use std::marker::Model;

/// The fluid service of each tenant, by number, up to the end of each slot. Contracts see the list of lists; the value
/// keeps the levels of the slots, from which the services of a tenant are reckoned when they are asked for.
#[derive(Drop)]
pub struct FluidReference<'a> {
    config: &'a Checked,
    slot: u64,
    // in the order of their tenants
    rows: Vec<FluidRow>,
    // in the order of their tenants
    changes: Vec<Change>,
    levels: Vec<Level>,
}

impl<'a> Model for FluidReference<'a> {
    ghost use Rattle.std.specs.Prelude.{List, ℕ, length};
    ghost use Rattle.fluid_reference.specs.Slots.{CanReplay, replayed_table};

    ghost Value = { List (List ℕ) };

    ghost view = { λ f. replayed_table f.config.now f.rows.items f.changes.items f.levels.items f.slot };

    ghost invariant = { λ f. CanReplay (length f.config.now.weights) f.rows.items f.changes.items };
}

impl<'a> FluidReference<'a> {
    // The reference whose slots have these levels, of requests and changes in the order of their tenants.
    pub(crate) fn new(
        config: &'a Checked,
        slot: u64,
        rows: Vec<FluidRow>,
        changes: Vec<Change>,
        levels: Vec<Level>,
    ) -> FluidReference<'a>
        requires { CanReplay (length config.now.weights) rows.items changes.items }
        ensures { result ≡ replayed_table config.now rows.items changes.items levels.items slot }
    {
        FluidReference {
            config,
            slot,
            rows,
            changes,
            levels,
        }
    }

    /// The number of slots.
    pub fn len(&self) -> usize
        ensures { result ≡ length self.now }
    {
        self.levels.len()
    }

    /// The fluid service of a tenant, in microseconds of work, up to the end of each slot. It is reckoned anew each
    /// time; the error is that memory ran out.
    pub fn services(&self, alloc: Global, tenant: u32) -> Result<Vec<u64>, AllocError>
        requires { (k : ℕ) → k < length self.now → tenant < length (slot_at self.now k) }
        ensures { IfOk result (λ v. v.items ≡ column_of self.now tenant) }
    {
        if self.levels.is_empty() {
            return Ok(Vec::new(alloc));
        }
        replay(
            alloc,
            self.config,
            self.rows.as_slice(),
            self.changes.as_slice(),
            self.levels.as_slice(),
            self.slot,
            tenant,
        )
    }
}
