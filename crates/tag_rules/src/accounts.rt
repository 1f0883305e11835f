//! Charges and tags.
ghost use Rattle.std.specs.Prelude.{◌≡◌, ◌<◌, ℤ, pos, ◌+ℤ◌, ◌≤ℤ◌, length, IfOk};
ghost use Rattle.tag_rules.specs.Accounts.{at_first, charge_of, base_of, raised, charged};

use fq_model::limits::{GREATEST_VIRTUAL_CHARGE, GREATEST_VIRTUAL_TIME};
use std::alloc::{AllocError, Global};
use std::marker::Model;

/// The virtual charge of each tenant and the base of its tag, in steps. In fair queuing the tag of a tenant is where
/// its next request starts: the greater of virtual time and the finish of the request before (Demers and others,
/// 1989). Here it is the charge and a base: the charge follows the estimates, uses and costs of the tenant's requests,
/// and the base rises where the tenant comes back behind virtual time. Contracts see both by number.
#[derive(Drop)]
pub struct Accounts {
    charges: Vec<i128>,
    bases: Vec<i128>,
}

impl Model for Accounts {
    ghost use Rattle.tag_rules.specs.Accounts.{AccountsView, IsSound};

    ghost Value = { AccountsView };

    ghost view = { λ a. record { charges = a.charges.items; bases = a.bases.items } };

    ghost invariant = { λ a. IsSound (record { charges = a.charges.items; bases = a.bases.items }) };
}

impl Accounts {
    /// No tenant is charged anything, and each tag is 0. All memory is taken here.
    pub fn open(alloc: Global, tenants: u32) -> Result<Accounts, AllocError>
        ensures { IfOk result (λ a. a ≡ at_first tenants) }
    {
        let charges = vec![in alloc; 0; tenants as usize]?;
        let bases = vec![in alloc; 0; tenants as usize]?;
        Ok(Accounts { charges, bases })
    }

    /// Raises the tag of the tenant to this virtual time where it is less.
    pub fn raise(&mut self, tenant: u32, v: i128)
        requires tenant { tenant < length self.old.charges }
        requires low { pos 0 ≤ℤ v }
        requires high { v ≤ℤ GREATEST_VIRTUAL_TIME }
        ensures { self.new ≡ raised self.old tenant v }
    {
        let tenant = tenant as usize;
        self.bases[tenant] = self.bases[tenant].max(v - self.charges[tenant]);
    }

    /// Moves the virtual charge of the tenant by `delta`, in steps.
    pub fn charge(&mut self, tenant: u32, delta: i128)
        requires tenant { tenant < length self.old.charges }
        requires low { pos 0 ≤ℤ (charge_of self.old tenant +ℤ delta) }
        requires high { (charge_of self.old tenant +ℤ delta) ≤ℤ GREATEST_VIRTUAL_CHARGE }
        ensures { self.new ≡ charged self.old tenant delta }
    {
        self.charges[tenant as usize] += delta;
    }

    /// The virtual charge of the tenant, in steps: the lengths of the charges of its taken requests.
    pub fn credit(&self, tenant: u32) -> i128
        requires tenant { tenant < length self.now.charges }
        ensures value { result ≡ charge_of self.now tenant }
        ensures low { pos 0 ≤ℤ result }
        ensures high { result ≤ℤ GREATEST_VIRTUAL_CHARGE }
    {
        self.charges[tenant as usize]
    }

    /// The tag of the tenant, in steps: its virtual charge and its base.
    pub fn tag(&self, tenant: u32) -> i128
        requires tenant { tenant < length self.now.charges }
        ensures value { result ≡ charge_of self.now tenant +ℤ base_of self.now tenant }
        ensures low { pos 0 ≤ℤ result }
        ensures high { result ≤ℤ (GREATEST_VIRTUAL_TIME +ℤ GREATEST_VIRTUAL_CHARGE) }
    {
        self.charges[tenant as usize] + self.bases[tenant as usize]
    }
}
