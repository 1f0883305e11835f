//! Copies of the names of a trace.
ghost use Rattle.std.specs.Prelude.{◌≡◌, IfOk};

use std::alloc::{AllocError, Global};
use tenant_table::kinds::Kinds;
use tenant_table::kinds_builder::KindsBuilder;
use tenant_table::tenants::Tenants;
use tenant_table::tenants_builder::TenantsBuilder;

/// A copy of the tenants.
pub(crate) fn copy_of_tenants(alloc: Global, tenants: &Tenants) -> Result<Tenants, AllocError>
    ensures { IfOk result (λ copy. copy ≡ tenants.now) }
{
    let mut copy = TenantsBuilder::new(alloc);
    for t in 0..tenants.len() {
        copy.add_new(tenants.name(t), tenants.weight(t))?;
    }
    copy.finish()
}

/// A copy of the kinds.
pub(crate) fn copy_of_kinds(alloc: Global, kinds: &Kinds) -> Result<Kinds, AllocError>
    ensures { IfOk result (λ copy. copy ≡ kinds.now) }
{
    let mut copy = KindsBuilder::new(alloc);
    for k in 0..kinds.len() {
        copy.add_new(kinds.name(k))?;
    }
    copy.finish()
}
