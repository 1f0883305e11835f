//! Kinds while they are added.
ghost use Rattle.std.specs.Prelude.{◌≡◌, ◌<◌, ◌==◌, ◌++◌, [], ◌∷◌, IsTrue, length, Some, None, IfOk, OnOk, OnErr, IfSome, IfNone, Contains, slice_get};
ghost use Rattle.fq_model.specs.Spelling.{is_name};
ghost use Rattle.tenant_table.specs.Names.{number_among, AreNames, kind_refusal, IsAnswer};
ghost use Rattle.tenant_table.specs.Rows.{kinds_of};

use crate::fault::NameFault;
use crate::kinds::Kinds;
use fq_model::limits::MOST_KINDS;
use fq_model::names::is_name;
use indexmap::IndexSet;
use std::alloc::{AllocError, Global};
use std::marker::Model;

/// Kinds while they are added, numbered in the order in which they came, and found by their names. Contracts see the
/// list of their names, as bytes.
#[derive(Drop)]
pub struct KindsBuilder {
    alloc: Global,
    names: IndexSet<String>,
}

impl Model for KindsBuilder {
    ghost use Rattle.std.specs.Prelude.{List, ℕ};
    ghost use Rattle.fq_model.specs.declared.limits.TheConstants.{MOST_KINDS};
    ghost use Rattle.tenant_table.specs.Names.{AreNames};
    ghost use Rattle.tenant_table.specs.Rows.{kinds_of};

    ghost Value = { List (List ℕ) };

    ghost view = { λ k. kinds_of k.names.keys };

    ghost invariant = { λ k. AreNames MOST_KINDS (kinds_of k.names.keys) };
}

impl KindsBuilder {
    /// No kinds yet. Takes no memory: `add` takes it from `alloc`.
    pub fn new(alloc: Global) -> KindsBuilder
        ensures { result ≡ [] }
    {
        KindsBuilder {
            alloc,
            names: IndexSet::new(alloc),
        }
    }

    /// Adds a kind and gives its number, which is how many there were. A refusal is the first reason,
    /// and leaves the kinds as they were. It is never `Weight`.
    pub fn add(&mut self, name: &str) -> Result<u32, NameFault>
        ensures answer { IsAnswer result (length self.old) (kind_refusal self.old name.now) }
        ensures added { OnOk result (self.new ≡ self.old ++ name.now ∷ []) }
        ensures unchanged { OnErr result (self.new ≡ self.old) }
    {
        if !is_name(name.as_bytes()) {
            return Err(NameFault::Word);
        }
        if let Some(k) = self.find(name) {
            return Err(NameFault::Twice(k));
        }
        let number = self.len();
        if number >= MOST_KINDS {
            return Err(NameFault::TooMany(MOST_KINDS));
        }
        Ok(self.add_new(name)?)
    }

    /// Adds a kind that is known to be one more, and gives its number, which is how many there were.
    /// Where memory runs out, the kinds stay as they were.
    pub fn add_new(&mut self, name: &str) -> Result<u32, AllocError>
        requires spelled { IsTrue (is_name name.now) }
        requires absent { number_among self.old name.now ≡ None }
        requires room { length self.old < MOST_KINDS }
        ensures number { IfOk result (λ k. k ≡ length self.old) }
        ensures added { OnOk result (self.new ≡ self.old ++ name.now ∷ []) }
        ensures unchanged { OnErr result (self.new ≡ self.old) }
    {
        let number = self.len();
        put(self.alloc, &mut self.names, name)?;
        Ok(number)
    }

    /// The number of the kind of this name.
    pub fn find(&self, name: &str) -> Option<u32>
        ensures number { result ≡ number_among self.now name.now }
        ensures found { IfSome result (λ k. slice_get self.now k ≡ Some name.now) }
        ensures absent { IfNone result (¬ Contains self.now name.now) }
        ensures limits { AreNames MOST_KINDS self.now }
    {
        let found = self.names.get_index_of(name)?;
        Some(found as u32)
    }

    /// How many kinds there are: at most 64.
    pub fn len(&self) -> u32
        ensures value { result ≡ length self.now }
        ensures limits { AreNames MOST_KINDS self.now }
    {
        self.names.len() as u32
    }

    /// Whether there are none.
    pub fn is_empty(&self) -> bool
        ensures { result ≡ (length self.now == 0) }
    {
        self.names.is_empty()
    }

    /// The kinds, now that all are added. The names stay where they are.
    pub fn finish(self) -> Result<Kinds, AllocError>
        ensures { IfOk result (λ kinds. kinds ≡ self) }
    {
        let KindsBuilder { alloc, names } = self;
        let names = names.into_iter().collect(alloc)?;
        Ok(Kinds { names })
    }
}

// Adds a name that is new.
fn put(alloc: Global, names: &mut IndexSet<String>, name: &str) -> Result<(), AllocError>
    requires { number_among (kinds_of names.old.keys) name.now ≡ None }
    ensures ok { OnOk result (kinds_of names.new.keys ≡ kinds_of names.old.keys ++ name.now ∷ []) }
    ensures unchanged { OnErr result (kinds_of names.new.keys ≡ kinds_of names.old.keys) }
{
    names.insert(name.to_string(alloc)?)?;
    Ok(())
}
