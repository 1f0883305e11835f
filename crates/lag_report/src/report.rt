//! Reports.
ghost use Rattle.std.specs.Prelude.{◌≡◌, ◌≤◌, length};

use fq_model::lag::TenantLag;
use fq_model::limits::TEXT_TENANTS;
use std::marker::Model;

/// A lag report. Contracts see it as the definitions' record.
#[derive(Drop)]
pub struct Report {
    slot: u64,
    slots: u64,
    rows: Vec<TenantLag>,
    end: u64,
    entries: u64,
}

impl Model for Report {
    ghost use Rattle.std.specs.Prelude.{◌≤◌, length};
    ghost use Rattle.fq_model.specs.declared.limits.TheConstants.{TEXT_TENANTS};
    ghost use Rattle.fq_model.specs.Report.{LagReport};

    ghost Value = { LagReport };

    ghost view = { λ r.
        record { slot = r.slot; slots = r.slots; rows = r.rows.items; end = r.end; entries = r.entries } };

    ghost invariant = { λ r. length r.rows.items ≤ TEXT_TENANTS };
}

impl Report {
    /// The report of these values: the length of a slot, the number of slots, the line of each tenant, by number, the
    /// moment of the last entry, and the number of entries. Takes no memory.
    pub fn new(slot: u64, slots: u64, rows: Vec<TenantLag>, end: u64, entries: u64) -> Report
        requires { length rows.items ≤ TEXT_TENANTS }
        ensures { result ≡ record { slot = slot; slots = slots; rows = rows.items; end = end; entries = entries } }
    {
        Report {
            slot,
            slots,
            rows,
            end,
            entries,
        }
    }

    /// The length of a slot, in microseconds.
    pub fn slot(&self) -> u64
        ensures { result ≡ self.now.slot }
    {
        self.slot
    }

    /// How many slots there are.
    pub fn slots(&self) -> u64
        ensures { result ≡ self.now.slots }
    {
        self.slots
    }

    /// The line of each tenant, by number.
    pub fn rows(&self) -> &[TenantLag]
        ensures value { result.now ≡ self.now.rows }
        ensures few { length result.now ≤ TEXT_TENANTS }
    {
        self.rows.as_slice()
    }

    /// The moment of the last entry, in microseconds, or 0.
    pub fn end(&self) -> u64
        ensures { result ≡ self.now.end }
    {
        self.end
    }

    /// The number of entries.
    pub fn entries(&self) -> u64
        ensures { result ≡ self.now.entries }
    {
        self.entries
    }
}
