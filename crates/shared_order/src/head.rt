//! Heads in the order.
ghost use Rattle.std.specs.Prelude.{◌≡◌, ◌↔◌, IsTrue};
ghost use Rattle.tag_rules.specs.Keys.{IsInRange};
ghost use Rattle.shared_order.specs.Heads.{head_of, HeadBefore};

use std::marker::Model;
use tag_rules::head_keys::Keys;

/// The head of a tenant: its finish and its length by the estimate, both in steps of virtual time, and its number.
/// Its start is its finish less its length; starts and lengths are in the range of `Keys`.
#[derive(Clone, Copy, Debug, PartialEq, Eq)]
pub struct Head {
    pub finish: i128,
    pub len: i128,
    pub tenant: u32,
    pub request: u32,
}

impl Model for Head {
    ghost use Rattle.std.specs.Prelude.{◌-ℤ◌};
    ghost use Rattle.shared_order.specs.Heads.{HeadView};
    ghost use Rattle.tag_rules.specs.Keys.{IsInRange};

    ghost Value = { HeadView };

    ghost view = { λ h. record { tenant = h.tenant; finish = h.finish; len = h.len; request = h.request } };

    ghost invariant = { λ h. IsInRange (h.finish -ℤ h.len) h.len };

    ghost inverse = { λ h. record { tenant = h.tenant; finish = h.finish; len = h.len; request = h.request } };
}

impl Head {
    /// The head of a tenant that has these keys.
    pub fn of(tenant: u32, keys: Keys) -> Head
        ensures head { result ≡ head_of tenant keys }
        ensures in_range { IsInRange keys.start keys.len }
    {
        Head {
            finish: keys.finish(),
            len: keys.len,
            tenant,
            request: keys.request,
        }
    }

    /// Whether this head finishes before another: by finish, then by number.
    #[inline]
    pub fn is_before(&self, other: &Head) -> bool
        ensures { IsTrue result ↔ HeadBefore self.now other.now }
    {
        self.finish < other.finish || (self.finish == other.finish && self.request < other.request)
    }
}
