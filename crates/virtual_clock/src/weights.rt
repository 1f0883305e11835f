//! The weights that tenants have now.
ghost use Rattle.std.specs.Prelude.{◌≡◌, ◌<◌, length, slice_index, slice_set, All, IfOk};
ghost use Rattle.fq_model.specs.Limits.{IsWeight};

use fq_model::config::Checked;
use std::alloc::{AllocError, Global};
use std::marker::Model;

/// The weight of each tenant, as it was set last. Contracts see them by number.
#[derive(Drop)]
pub struct WeightsNow {
    items: Vec<u32>,
}

impl Model for WeightsNow {
    ghost use Rattle.std.specs.Prelude.{List, ℕ, All};
    ghost use Rattle.fq_model.specs.Limits.{IsWeight};

    ghost Value = { List ℕ };

    ghost view = { λ w. w.items.items };

    ghost invariant = { λ w. All IsWeight w.items.items };
}

impl WeightsNow {
    /// The weights of the configuration. All their memory is taken here.
    pub fn open(alloc: Global, config: &Checked) -> Result<WeightsNow, AllocError>
        ensures { IfOk result (λ w. w ≡ config.now.weights) }
    {
        Ok(WeightsNow {
            items: config.weights().to_vec(alloc)?,
        })
    }

    /// The weight of a tenant, 1 to 1,000.
    pub fn of(&self, tenant: u32) -> u32
        requires { tenant < length self.now }
        ensures value { result ≡ slice_index self.now tenant }
        ensures range { IsWeight result }
    {
        self.items[tenant as usize]
    }

    /// By tenant, its weight.
    pub fn as_slice(&self) -> &[u32]
        ensures weights { result.now ≡ self.now }
        ensures range { All IsWeight self.now }
    {
        &self.items
    }

    /// Gives a tenant another weight.
    pub fn set(&mut self, tenant: u32, weight: u32)
        requires tenant { tenant < length self.old }
        requires range { IsWeight weight }
        ensures { self.new ≡ slice_set self.old tenant weight }
    {
        self.items[tenant as usize] = weight;
    }
}
