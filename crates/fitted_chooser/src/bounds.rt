//! The bound of few tenants.
ghost use Rattle.std.specs.Prelude.{◌≡◌};
ghost use Rattle.fitted_chooser.specs.Fitted.{are_few};

use fq_model::config::Checked;

/// The most tenants that are few: with as many, a look at each head at a choice costs no more than one order of heads
/// does, which is kept up at each change of a head.
pub const FEW_TENANTS: u32 = 16;

/// Whether a configuration has few tenants.
pub fn are_few(config: &Checked) -> bool
    ensures { result ≡ are_few config.now }
{
    config.tenants() <= FEW_TENANTS
}
