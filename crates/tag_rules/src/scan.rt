//! The first of the tenants in a table.
ghost use Rattle.std.specs.Prelude.{◌≤◌, ◌↔◌, length, IsTrue, IfSome, IfNone};
ghost use Rattle.fq_model.specs.Keys.{IsChoice};
ghost use Rattle.tag_rules.specs.Tables.{Has, NoneHas, RequestsDiffer};
ghost use Rattle.tag_rules.specs.Passes.{GoesIn, BeforeIn, IsFirstIn, NoneGoesIn};
ghost use Rattle.tag_rules.specs.Scan.{TakesIn, ComesFirst};

use crate::head_keys::Keys;
use crate::pass::Pass;
use crate::turn::Turn;
use fq_model::limits::MOST_TENANTS;

/// A tenant that has a head, and the keys of that.
#[derive(Clone, Copy, Debug, PartialEq, Eq)]
pub struct Found {
    pub tenant: u32,
    pub keys: Keys,
}

/// The head that a worker takes, of those of a table: of the eligible ones the first by finish, or, where none is
/// eligible, the first of all by eligible key. Each is looked at.
pub fn choice_in(turn: Turn, table: &[Option<Keys>]) -> Option<Found>
    requires few { length table.now ≤ MOST_TENANTS }
    requires differ { RequestsDiffer table.now }
    ensures chosen { IfSome result (λ f. IsChoice turn (Has table.now) f.tenant f.keys) }
    ensures none { IfNone result (NoneHas table.now) }
{
    match first_in(Pass::Eligible, turn, table) {
        Some(found) => Some(found),
        None => first_in(Pass::Fallback, turn, table),
    }
}

/// The tenant whose head is the first by the pass, of the tenants whose heads go in it.
pub fn first_in(pass: Pass, turn: Turn, table: &[Option<Keys>]) -> Option<Found>
    requires few { length table.now ≤ MOST_TENANTS }
    requires differ { RequestsDiffer table.now }
    ensures first { IfSome result (IsFirstIn pass turn table.now) }
    ensures none { IfNone result (NoneGoesIn pass turn table.now) }
{
    let mut first: Option<Found> = None;
    for (tenant, slot) in table.iter().enumerate() {
        if let Some(keys) = slot {
            let found = Found {
                tenant: tenant as u32,
                keys: *keys,
            };
            first = with_next(pass, turn, first, found);
        }
    }
    first
}

// The first of those that go in the pass, the next tenant with them.
fn with_next(pass: Pass, turn: Turn, first: Option<Found>, next: Found) -> Option<Found>
    ensures { TakesIn (GoesIn pass turn) (BeforeIn pass turn) first next result }
{
    if comes_first(pass, turn, &first, next.keys) && pass.takes(turn, next.keys) {
        Some(next)
    } else {
        first
    }
}

// Whether the head of these keys is before the first by the pass, if there is one.
fn comes_first(pass: Pass, turn: Turn, first: &Option<Found>, keys: Keys) -> bool
    ensures { IsTrue result ↔ ComesFirst (BeforeIn pass turn) first.now keys }
{
    match first {
        Some(found) => pass.is_before(turn, keys, found.keys),
        None => true,
    }
}
