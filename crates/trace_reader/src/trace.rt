//! Traces.
ghost use Rattle.std.specs.Prelude.{◌≡◌};
ghost use Rattle.tenant_table.specs.Names.{names_of, weights_of};
ghost use Rattle.trace_reader.specs.Reading.{trace_in};

use program_model::trace::TraceRow;
use std::marker::Model;
use tenant_table::kinds::Kinds;
use tenant_table::tenants::Tenants;

/// A trace: the tenants and kinds that there are, and the requests that come, in order of time.
#[derive(Drop)]
pub struct Trace {
    tenants: Tenants,
    kinds: Kinds,
    rows: Vec<TraceRow>,
}

impl Model for Trace {
    ghost use Rattle.program_model.specs.Trace.{Trace};
    ghost use Rattle.trace_reader.specs.Reading.{trace_in};

    ghost Value = { Trace };

    ghost view = { λ t. trace_in t.tenants t.kinds t.rows.items };
}

impl Trace {
    /// The trace of these tenants, kinds and requests.
    pub fn new(tenants: Tenants, kinds: Kinds, rows: Vec<TraceRow>) -> Trace
        ensures { result ≡ trace_in tenants kinds rows.items }
    {
        Trace {
            tenants,
            kinds,
            rows,
        }
    }

    /// The tenants and the kinds, where the requests are needed no more.
    pub fn into_names(self) -> (Tenants, Kinds)
        ensures names { names_of result.0 ≡ self.tenants }
        ensures weights { weights_of result.0 ≡ self.weights }
        ensures kinds { result.1 ≡ self.kinds }
    {
        (self.tenants, self.kinds)
    }

    /// The tenants.
    pub fn tenants(&self) -> &Tenants
        ensures names { names_of result.now ≡ self.now.tenants }
        ensures weights { weights_of result.now ≡ self.now.weights }
    {
        &self.tenants
    }

    /// The kinds.
    pub fn kinds(&self) -> &Kinds
        ensures { result.now ≡ self.now.kinds }
    {
        &self.kinds
    }

    /// The requests in order.
    pub fn rows(&self) -> &[TraceRow]
        ensures { result.now ≡ self.now.rows }
    {
        self.rows.as_slice()
    }
}
