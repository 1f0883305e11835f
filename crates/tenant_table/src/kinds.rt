//! The kinds' names.
ghost use Rattle.std.specs.Prelude.{◌≡◌, ◌<◌, ◌==◌, length, Some, slice_get};
ghost use Rattle.fq_model.specs.declared.limits.TheConstants.{MOST_KINDS};
ghost use Rattle.tenant_table.specs.Names.{AreNames};

use std::marker::Model;

/// Kinds, numbered in the order in which they were added. Contracts see the list of their names, as
/// bytes.
#[derive(Drop)]
pub struct Kinds {
    pub(crate) names: Vec<String>,
}

impl Model for Kinds {
    ghost use Rattle.std.specs.Prelude.{List, ℕ};
    ghost use Rattle.fq_model.specs.declared.limits.TheConstants.{MOST_KINDS};
    ghost use Rattle.tenant_table.specs.Names.{AreNames};
    ghost use Rattle.tenant_table.specs.Rows.{kinds_of};

    ghost Value = { List (List ℕ) };

    ghost view = { λ k. kinds_of k.names.items };

    ghost invariant = { λ k. AreNames MOST_KINDS (kinds_of k.names.items) };
}

impl Kinds {
    /// How many kinds there are: at most 64.
    pub fn len(&self) -> u32
        ensures value { result ≡ length self.now }
        ensures limits { AreNames MOST_KINDS self.now }
    {
        self.names.len() as u32
    }

    /// Whether there are none.
    pub fn is_empty(&self) -> bool
        ensures { result ≡ (length self.now == 0) }
    {
        self.names.is_empty()
    }

    /// The name of kind `k`.
    pub fn name(&self, k: u32) -> &str
        requires { k < length self.now }
        ensures value { slice_get self.now k ≡ Some result.now }
        ensures limits { AreNames MOST_KINDS self.now }
    {
        self.names[k as usize].as_str()
    }
}
