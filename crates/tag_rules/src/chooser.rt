//! A chooser of tenants for workers.
ghost use Rattle.std.specs.Prelude.{◌≡◌, ◌<◌, ◌≤◌, ◌≤ℤ◌, IfOk, IfSome, IfNone};
ghost use Rattle.tag_rules.specs.Tables.{ChooserView, opened, with_keys, resized, asked_at, NoneHas, IsNewTo, IsTableChoice};

use crate::head_keys::Keys;
use fq_model::config::Checked;
use std::alloc::{AllocError, Global};

/// Chooses tenants by the keys of their heads. No call after `open` takes memory.
pub trait Chooser: Sized {
    /// Its view in contracts: its setting, the keys by tenant, and the greatest virtual time of a choice so far, or 0.
    ghost seen: { Self → ChooserView };

    /// A chooser for this configuration in which no tenant has keys. All its memory is taken here.
    fn open(alloc: Global, config: &Checked) -> Result<Self, AllocError>
        ensures { IfOk result (λ c. seen c ≡ opened config.now) };

    /// Gives a tenant the keys of its head, or takes them from it where it has no head any more.
    fn set(&mut self, tenant: u32, keys: Option<Keys>)
        requires tenant { tenant < (seen self.old).setting.tenants }
        requires new_request { IfSome keys (IsNewTo (seen self.old).table tenant) }
        ensures { seen self.new ≡ with_keys (seen self.old) tenant keys };

    /// From here on there are `workers` workers, and the stagger goes by that number. The keys stay, and so does the
    /// greatest virtual time of a choice so far.
    fn resize(&mut self, workers: u32)
        requires some { 1 ≤ workers }
        requires few { workers ≤ (seen self.old).setting.most_workers }
        ensures { seen self.new ≡ resized (seen self.old) workers };

    /// The tenant whose head a worker takes at virtual time `v`, in steps, which is no earlier than at the choices
    /// before: of the heads that are eligible for the worker the first by finish, or, where none is eligible, the
    /// first by eligible key, then by finish; of equal ones that of the lesser request.
    fn choose(&mut self, worker: u32, v: i128) -> Option<u32>
        requires worker { worker < (seen self.old).setting.workers }
        requires not_back { (seen self.old).latest ≤ℤ v }
        ensures chosen { IfSome result (IsTableChoice (seen self.old).setting (seen self.old).table worker v) }
        ensures none { IfNone result (NoneHas (seen self.old).table) }
        ensures seen { seen self.new ≡ asked_at (seen self.old) v };
}
