//! A chooser that foresees a choice.
ghost use Rattle.std.specs.Prelude.{◌≡◌, ◌<◌, ◌≤◌, ◌≤ℤ◌, ◌↔◌, IsTrue, length, unsigned_abs};
ghost use Rattle.std.specs.List.{All};
ghost use Rattle.vt_fixed.specs.Rounding.{cost_of};
ghost use Rattle.fq_model.specs.Limits.{IsWeight};
ghost use Rattle.tag_rules.specs.Tables.{RequestsDiffer};
ghost use Rattle.tag_rules.specs.Foreseen.{SomeIsShort, IsForeseenOver, IsForeseenBy};

use crate::chooser::Chooser;
use crate::head_keys::Keys;
use crate::scan::choice_in;
use crate::turn::Turn;
use fq_model::limits::MOST_TENANTS;
use vt_fixed::cost;

/// The foreseen choice of a worker.
#[derive(Clone, Copy, Debug, PartialEq, Eq)]
pub struct ForeseenChoice {
    /// The tenant whose head the worker would take.
    pub tenant: u32,
    /// Whether that head is eligible for the worker. If it is not, no head is.
    pub is_eligible: bool,
    /// Whether some head that is eligible for the worker has an estimate below the one that was asked about.
    pub has_smaller: bool,
}

/// Foresees a choice, and makes none: nothing changes, and no memory is taken.
pub trait Foresees: Chooser {
    /// The foreseen choice of the worker at virtual time `v`, in steps, which is no earlier than at the choices before;
    /// and whether an eligible head has an estimate below `below`, in microseconds. A head's estimate is told by its
    /// length and its tenant's weight: `weights` has, by tenant, those by which the lengths were reckoned. A choice
    /// after this look may be at an earlier virtual time.
    fn foresee(&self, worker: u32, v: i128, below: u64, weights: &[u32]) -> Option<ForeseenChoice>
        requires worker { worker < (Self.seen self.now).setting.workers }
        requires not_back { (Self.seen self.now).latest ≤ℤ v }
        requires tenants { length weights.now ≡ (Self.seen self.now).setting.tenants }
        requires weights { All IsWeight weights.now }
        ensures { IsForeseenBy (Self.seen self.now) worker v weights.now below result };
}

/// The foreseen choice among the heads of a table, of which each is looked at.
pub fn foreseen_in(
    turn: Turn,
    table: &[Option<Keys>],
    below: u64,
    weights: &[u32],
) -> Option<ForeseenChoice>
    requires few { length table.now ≤ MOST_TENANTS }
    requires differ { RequestsDiffer table.now }
    requires weights { length weights.now ≡ length table.now }
    ensures { IsForeseenOver turn table.now weights.now below result }
{
    let found = choice_in(turn, table)?;
    Some(ForeseenChoice {
        tenant: found.tenant,
        is_eligible: turn.is_eligible(found.keys),
        has_smaller: has_smaller(turn, table, below, weights),
    })
}

/// Whether a head of the table that is eligible has an estimate below this, in microseconds.
fn has_smaller(turn: Turn, table: &[Option<Keys>], below: u64, weights: &[u32]) -> bool
    requires { length weights.now ≡ length table.now }
    ensures { IsTrue result ↔ SomeIsShort turn table.now weights.now below }
{
    for (tenant, slot) in table.iter().enumerate() {
        if let Some(keys) = slot {
            if is_short(*keys, weights[tenant], below) && turn.is_eligible(*keys) {
                return true;
            }
        }
    }
    false
}

/// Whether the keys stand for an estimate below this, in microseconds, at this weight.
fn is_short(keys: Keys, weight: u32, below: u64) -> bool
    ensures { IsTrue result ↔ (cost_of (unsigned_abs keys.len) weight < below) }
{
    cost(keys.len, weight) < below
}
