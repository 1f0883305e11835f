//! The tenants' names and weights.
ghost use Rattle.std.specs.Prelude.{◌≡◌, ◌<◌, ◌==◌, length, Some, IfOk, slice_get, slice_index};
ghost use Rattle.tenant_table.specs.Names.{names_of, weights_of, AreTenants};

use std::alloc::{AllocError, Global};
use std::marker::Model;

/// Tenants, numbered in the order in which they were added. Contracts see the list of their names, as
/// bytes, with their weights.
#[derive(Drop)]
pub struct Tenants {
    pub(crate) rows: Vec<(String, u32)>,
}

impl Model for Tenants {
    ghost use Rattle.std.specs.Prelude.{List, ℕ};
    ghost use Rattle.tenant_table.specs.Names.{AreTenants};
    ghost use Rattle.tenant_table.specs.Rows.{tenants_of};

    ghost Value = { List (List ℕ × ℕ) };

    ghost view = { λ t. tenants_of t.rows.items };

    ghost invariant = { λ t. AreTenants (tenants_of t.rows.items) };
}

impl Tenants {
    /// How many tenants there are: at most 4,096.
    pub fn len(&self) -> u32
        ensures value { result ≡ length self.now }
        ensures limits { AreTenants self.now }
    {
        self.rows.len() as u32
    }

    /// Whether there are none.
    pub fn is_empty(&self) -> bool
        ensures { result ≡ (length self.now == 0) }
    {
        self.rows.is_empty()
    }

    /// The weights of the tenants by number, each 1 to 1,000.
    pub fn weights(&self, alloc: Global) -> Result<Vec<u32>, AllocError>
        ensures { IfOk result (λ weights. weights.items ≡ weights_of self.now) }
    {
        let mut weights = Vec::new(alloc);
        for t in 0..self.len() {
            weights.push(self.weight(t))?;
        }
        Ok(weights)
    }

    /// The name of tenant `t`.
    pub fn name(&self, t: u32) -> &str
        requires { t < length self.now }
        ensures value { slice_get (names_of self.now) t ≡ Some result.now }
        ensures limits { AreTenants self.now }
    {
        self.rows[t as usize].0.as_str()
    }

    /// The weight of tenant `t`: 1 to 1,000.
    pub fn weight(&self, t: u32) -> u32
        requires { t < length self.now }
        ensures value { result ≡ slice_index (weights_of self.now) t }
        ensures limits { AreTenants self.now }
    {
        self.rows[t as usize].1
    }
}
