//! Traces while their requests are added.
ghost use Rattle.std.specs.Prelude.{◌≡◌, [], ◌∷◌, if◌then◌else◌, codes, IfOk};
ghost use Rattle.program_model.specs.Trace.{with_some_kind};
ghost use Rattle.program_model.specs.TraceGrammar.{no_records};
ghost use Rattle.trace_reader.specs.Reading.{trace_in};

use crate::trace::Trace;
use program_model::trace::TraceRow;
use std::alloc::{AllocError, Global};
use std::marker::Model;
use tenant_table::kinds::Kinds;
use tenant_table::kinds_builder::KindsBuilder;
use tenant_table::tenants_builder::TenantsBuilder;

// A trace so far: its tenants and kinds can be found by their names.
#[derive(Drop)]
pub(crate) struct Draft {
    pub(crate) tenants: TenantsBuilder,
    pub(crate) kinds: KindsBuilder,
    pub(crate) rows: Vec<TraceRow>,
}

impl Model for Draft {
    ghost use Rattle.program_model.specs.Trace.{Trace};
    ghost use Rattle.trace_reader.specs.Reading.{trace_in};

    ghost Value = { Trace };

    ghost view = { λ d. trace_in d.tenants d.kinds d.rows.items };
}

impl Draft {
    // These tenants, and no requests yet. Takes no memory.
    pub(crate) fn new(alloc: Global, tenants: TenantsBuilder) -> Draft
        ensures { result ≡ trace_in tenants [] [] }
    {
        Draft {
            tenants,
            kinds: KindsBuilder::new(alloc),
            rows: Vec::new(alloc),
        }
    }

    // No tenants and no requests yet. Takes no memory.
    pub(crate) fn empty(alloc: Global) -> Draft
        ensures { result ≡ no_records }
    {
        Draft::new(alloc, TenantsBuilder::new(alloc))
    }

    // The trace of all these requests: where there are none, its only kind is `-`.
    pub(crate) fn finish(self, alloc: Global) -> Result<Trace, AllocError>
        ensures { IfOk result (λ t. t ≡ with_some_kind self) }
    {
        let Draft {
            tenants,
            kinds,
            rows,
        } = self;
        let kinds = some_kind(alloc, kinds, rows.is_empty())?;
        Ok(Trace::new(tenants.finish()?, kinds, rows))
    }
}

// These kinds, or, where there are no requests, the only kind `-`.
fn some_kind(alloc: Global, kinds: KindsBuilder, none: bool) -> Result<Kinds, AllocError>
    ensures { IfOk result (λ some. some ≡ (if none then codes "-" ∷ [] else kinds)) }
{
    if none {
        drop(kinds);
        return no_kind(alloc);
    }
    kinds.finish()
}

// The only kind of a trace with no requests.
fn no_kind(alloc: Global) -> Result<Kinds, AllocError>
    ensures { IfOk result (λ kinds. kinds ≡ codes "-" ∷ []) }
{
    let mut kinds = KindsBuilder::new(alloc);
    kinds.add_new("-")?;
    kinds.finish()
}
