//! A chooser for few tenants, or one for more.
ghost use Rattle.std.specs.Prelude.{◌≡◌, IfOk};
ghost use Rattle.tag_rules.specs.Tables.{opened};
ghost use Rattle.fitted_chooser.specs.Fitted.{are_few, is_for_few, seen_of};

use crate::bounds::are_few;
use fq_model::config::Checked;
use rival_policies::plain::PlainChooser;
use shared_order::chooser::SharedChooser;
use std::alloc::{AllocError, Global};
use tag_rules::chooser::Chooser;
use tag_rules::foresees::{ForeseenChoice, Foresees};
use tag_rules::head_keys::Keys;

/// The program's chooser: a look at each head where there are few tenants, and else one order of heads.
pub type ProgramChooser = FittedChooser<PlainChooser, SharedChooser>;

/// One of two choosers, which the configuration decides at the opening: that for few where `are_few` says so, else that
/// for many. It stays the same however many workers there are later.
#[derive(Drop)]
pub enum FittedChooser<F, M> {
    ForFew(F),
    ForMany(M),
}

impl<F: Chooser, M: Chooser> Chooser for FittedChooser<F, M> {
    ghost seen = { seen_of F.seen M.seen };

    fn open(alloc: Global, config: &Checked) -> Result<Self, AllocError>
        ensures opened { IfOk result (λ c. seen_of F.seen M.seen c ≡ opened config.now) }
        ensures fitted { IfOk result (λ c. is_for_few c ≡ are_few config.now) }
    {
        if are_few(config) {
            Ok(FittedChooser::ForFew(F::open(alloc, config)?))
        } else {
            Ok(FittedChooser::ForMany(M::open(alloc, config)?))
        }
    }

    fn set(&mut self, tenant: u32, keys: Option<Keys>) {
        match self {
            FittedChooser::ForFew(inner) => inner.set(tenant, keys),
            FittedChooser::ForMany(inner) => inner.set(tenant, keys),
        }
    }

    fn resize(&mut self, workers: u32) {
        match self {
            FittedChooser::ForFew(inner) => inner.resize(workers),
            FittedChooser::ForMany(inner) => inner.resize(workers),
        }
    }

    fn choose(&mut self, worker: u32, v: i128) -> Option<u32> {
        match self {
            FittedChooser::ForFew(inner) => inner.choose(worker, v),
            FittedChooser::ForMany(inner) => inner.choose(worker, v),
        }
    }
}

impl<F: Foresees, M: Foresees> Foresees for FittedChooser<F, M> {
    fn foresee(&self, worker: u32, v: i128, below: u64, weights: &[u32]) -> Option<ForeseenChoice> {
        match self {
            FittedChooser::ForFew(inner) => inner.foresee(worker, v, below, weights),
            FittedChooser::ForMany(inner) => inner.foresee(worker, v, below, weights),
        }
    }
}
