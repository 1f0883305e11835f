//! Which two tenants have no gap.
ghost use Rattle.std.specs.Prelude.{◌≡◌};
ghost use Rattle.fq_model.specs.Limits.{InLimits};
ghost use Rattle.tag_difference.specs.Pairs.{tenant_fault};

use crate::fault::GapFault;
use fq_model::config::Checked;

/// Why these two tenants have no gap in any history, if they have none.
pub fn tenant_fault(config: &Checked, f: u32, g: u32) -> Option<GapFault>
    ensures fault { result ≡ tenant_fault config.now f g }
    ensures limits { InLimits config.now }
{
    let tenants = config.tenants();
    if f >= tenants {
        Some(GapFault::UnknownTenant(f))
    } else if g >= tenants {
        Some(GapFault::UnknownTenant(g))
    } else if f == g {
        Some(GapFault::SameTenant)
    } else {
        None
    }
}
