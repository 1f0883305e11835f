//! Tenants while they are added.
ghost use Rattle.std.specs.Prelude.{◌≡◌, ◌<◌, ◌==◌, ◌++◌, [], ◌∷◌, IsTrue, length, Some, None, IfOk, OnOk, OnErr, IfSome, IfNone, Contains, slice_get};
ghost use Rattle.fq_model.specs.Limits.{IsTextWeight};
ghost use Rattle.fq_model.specs.Spelling.{is_name};
ghost use Rattle.tenant_table.specs.Names.{names_of, number_among, AreTenants, tenant_refusal, IsAnswer};
ghost use Rattle.tenant_table.specs.Rows.{tenants_of};

use crate::fault::NameFault;
use crate::tenants::Tenants;
use fq_model::limits::{TEXT_TENANTS, TEXT_WEIGHT};
use fq_model::names::is_name;
use indexmap::IndexMap;
use std::alloc::{AllocError, Global};
use std::marker::Model;

/// Tenants while they are added, numbered in the order in which they came, and found by their names. Contracts see the
/// list of their names, as bytes, with their weights.
#[derive(Drop)]
pub struct TenantsBuilder {
    alloc: Global,
    rows: IndexMap<String, u32>,
}

impl Model for TenantsBuilder {
    ghost use Rattle.std.specs.Prelude.{List, ℕ};
    ghost use Rattle.tenant_table.specs.Names.{AreTenants};
    ghost use Rattle.tenant_table.specs.Rows.{tenants_of};

    ghost Value = { List (List ℕ × ℕ) };

    ghost view = { λ t. tenants_of t.rows.entries };

    ghost invariant = { λ t. AreTenants (tenants_of t.rows.entries) };
}

impl TenantsBuilder {
    /// No tenants yet. Takes no memory: `add` takes it from `alloc`.
    pub fn new(alloc: Global) -> TenantsBuilder
        ensures { result ≡ [] }
    {
        TenantsBuilder {
            alloc,
            rows: IndexMap::new(alloc),
        }
    }

    /// Adds a tenant and gives its number, which is how many there were. A refusal is the first reason,
    /// and leaves the tenants as they were.
    pub fn add(&mut self, name: &str, weight: u32) -> Result<u32, NameFault>
        ensures answer { IsAnswer result (length self.old) (tenant_refusal self.old name.now weight) }
        ensures added { OnOk result (self.new ≡ self.old ++ (name.now, weight) ∷ []) }
        ensures unchanged { OnErr result (self.new ≡ self.old) }
    {
        if !is_name(name.as_bytes()) {
            return Err(NameFault::Word);
        }
        if weight < 1 || weight > TEXT_WEIGHT {
            return Err(NameFault::Weight(weight));
        }
        if let Some(t) = self.find(name) {
            return Err(NameFault::Twice(t));
        }
        let number = self.len();
        if number >= TEXT_TENANTS {
            return Err(NameFault::TooMany(TEXT_TENANTS));
        }
        Ok(self.add_new(name, weight)?)
    }

    /// Adds a tenant that is known to be one more, and gives its number, which is how many there were.
    /// Where memory runs out, the tenants stay as they were.
    pub fn add_new(&mut self, name: &str, weight: u32) -> Result<u32, AllocError>
        requires spelled { IsTrue (is_name name.now) }
        requires weighs { IsTextWeight weight }
        requires absent { number_among (names_of self.old) name.now ≡ None }
        requires room { length self.old < TEXT_TENANTS }
        ensures number { IfOk result (λ t. t ≡ length self.old) }
        ensures added { OnOk result (self.new ≡ self.old ++ (name.now, weight) ∷ []) }
        ensures unchanged { OnErr result (self.new ≡ self.old) }
    {
        let number = self.len();
        put(self.alloc, &mut self.rows, name, weight)?;
        Ok(number)
    }

    /// The number of the tenant of this name.
    pub fn find(&self, name: &str) -> Option<u32>
        ensures number { result ≡ number_among (names_of self.now) name.now }
        ensures found { IfSome result (λ t. slice_get (names_of self.now) t ≡ Some name.now) }
        ensures absent { IfNone result (¬ Contains (names_of self.now) name.now) }
        ensures limits { AreTenants self.now }
    {
        let found = self.rows.get_index_of(name)?;
        Some(found as u32)
    }

    /// How many tenants there are: at most 4,096.
    pub fn len(&self) -> u32
        ensures value { result ≡ length self.now }
        ensures limits { AreTenants self.now }
    {
        self.rows.len() as u32
    }

    /// Whether there are none.
    pub fn is_empty(&self) -> bool
        ensures { result ≡ (length self.now == 0) }
    {
        self.rows.is_empty()
    }

    /// The tenants, now that all are added. The names stay where they are.
    pub fn finish(self) -> Result<Tenants, AllocError>
        ensures { IfOk result (λ tenants. tenants ≡ self) }
    {
        let TenantsBuilder { alloc, rows } = self;
        let rows = rows.into_iter().collect(alloc)?;
        Ok(Tenants { rows })
    }
}

// Adds a row whose name is new.
fn put(
    alloc: Global,
    rows: &mut IndexMap<String, u32>,
    name: &str,
    weight: u32,
) -> Result<(), AllocError>
    requires { number_among (names_of (tenants_of rows.old.entries)) name.now ≡ None }
    ensures ok { OnOk result (tenants_of rows.new.entries ≡ tenants_of rows.old.entries ++ (name.now, weight) ∷ []) }
    ensures unchanged { OnErr result (tenants_of rows.new.entries ≡ tenants_of rows.old.entries) }
{
    rows.insert(name.to_string(alloc)?, weight)?;
    Ok(())
}
