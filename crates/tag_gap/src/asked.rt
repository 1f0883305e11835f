//! The tenants and the declared costs of requests.
ghost use Rattle.std.specs.Prelude.{◌≡◌, IfOk, filter_map};
ghost use Rattle.tag_gap.specs.Asked.{submitted};

use fq_model::event::{Act, Entry};
use std::alloc::{AllocError, Global};

/// The tenant and the declared cost in the Submit of a request.
#[derive(Clone, Copy, Debug, PartialEq, Eq)]
pub struct Asked {
    pub tenant: u32,
    /// In microseconds.
    pub declared: u64,
}

/// The tenants and declared costs in the Submits of a past, in order of time: where it is legal, by request number.
pub fn asked_in(alloc: Global, past: &[Entry]) -> Result<Vec<Asked>, AllocError>
    ensures { IfOk result (λ v. v.items ≡ filter_map (λ e. submitted e.act) past.now) }
{
    past.iter()
        .filter_map(|entry| submitted(entry))
        .collect(alloc)
}

// The tenant and the declared cost of the request that the entry submits, if it does.
fn submitted(entry: &Entry) -> Option<Asked>
    ensures { result ≡ submitted entry.now.act }
{
    match entry.act {
        Act::Submit {
            tenant,
            declared,
            ..
        } => Some(Asked { tenant, declared }),
        _ => None,
    }
}
