//! A choice among the heads of an order, foreseen, and the search for an eligible head with a small estimate.
ghost use Rattle.std.specs.Prelude.{◌≡◌, ◌<◌, ◌↔◌, pos, ◌≤ℤ◌, length, true, false, IsTrue, IfSome, IfNone};
ghost use Rattle.std.specs.List.{All};
ghost use Rattle.fq_model.specs.Limits.{IsWeight};
ghost use Rattle.shared_order.specs.Heads.{IsSorted};
ghost use Rattle.shared_order.specs.Blocks.{all_heads, KeepsOrder};
ghost use Rattle.shared_order.specs.Extents.{IsShortEnough, NoneSoLongIsReached, EndsBefore};
ghost use Rattle.shared_order.specs.Search.{AreInRange, AreInOrder, AreInLimits, IsReached, IsFirstThat};
ghost use Rattle.shared_order.specs.Outlook.{IsWeighed, IsSought, SomeIsSought, IsOutlook, IsLongestBelow};

use crate::block::Block;
use crate::extent::Extent;
use crate::groups::Groups;
use crate::head::Head;
use crate::order::Order;
use crate::search::{first_eligible, is_in_reach, soonest};
use fq_model::limits::{GREATEST_COST, GREATEST_LENGTH};
use tag_rules::foresees::ForeseenChoice;
use tag_rules::turn::Turn;
use vt_fixed::{cost, length};

/// Foresees the worker's choice, and whether an eligible head has an estimate below this, in microseconds. `weights`
/// has, by tenant, those by which the heads' lengths were reckoned. Where the choice is not eligible no head is.
pub fn outlook(turn: Turn, order: &Order, below: u64, weights: &[u32]) -> Option<ForeseenChoice>
    requires begun { pos 0 ≤ℤ turn.virtual_time }
    requires in_range { AreInRange order.now.heads }
    requires weights { All IsWeight weights.now }
    requires weighed { All (IsWeighed weights.now) order.now.heads }
    ensures sorted { IsSorted order.now.heads }
    ensures outlook { IsOutlook turn order.now.heads weights.now below result }
{
    let groups = order.groups();
    match first_eligible(turn, groups) {
        Some(head) => Some(ForeseenChoice {
            tenant: head.tenant,
            is_eligible: true,
            has_smaller: has_smaller(turn, groups, below, weights),
        }),
        None => {
            let head = soonest(turn, groups)?;
            Some(ForeseenChoice {
                tenant: head.tenant,
                is_eligible: false,
                has_smaller: false,
            })
        }
    }
}

// Whether an eligible head has an estimate below this, in microseconds. None is below 0: whoever asks of 0 pays
// nothing.
fn has_smaller(turn: Turn, groups: &Groups, below: u64, weights: &[u32]) -> bool
    requires begun { pos 0 ≤ℤ turn.virtual_time }
    requires kept { KeepsOrder groups.now.used }
    requires in_range { AreInRange (all_heads groups.now.used) }
    requires weights { All IsWeight weights.now }
    requires weighed { All (IsWeighed weights.now) (all_heads groups.now.used) }
    ensures { IsTrue result ↔ SomeIsSought turn (all_heads groups.now.used) weights.now below }
{
    below > 0 && first_smaller(turn, groups, below, weights).is_some()
}

/// The first eligible head with an estimate below this, in microseconds.
///
/// Such a head is no longer than that estimate is at weight 1. If a head of this length that finishes with the first of
/// a group would not be eligible, neither this group nor a later one has what is sought, and the search ends there. A
/// group or a block whose shortest head is longer is passed over.
pub(crate) fn first_smaller(
    turn: Turn,
    groups: &Groups,
    below: u64,
    weights: &[u32],
) -> Option<Head>
    requires begun { pos 0 ≤ℤ turn.virtual_time }
    requires kept { KeepsOrder groups.now.used }
    requires in_range { AreInRange (all_heads groups.now.used) }
    requires weights { All IsWeight weights.now }
    requires weighed { All (IsWeighed weights.now) (all_heads groups.now.used) }
    ensures first { IfSome result (IsFirstThat (IsSought turn weights.now below) (all_heads groups.now.used)) }
    ensures none { IfNone result (All (λ h. ¬ IsSought turn weights.now below h) (all_heads groups.now.used)) }
{
    let longest = longest_below(below);
    for at in 0..groups.count() {
        let group = groups.extent(at);
        if ends_before(turn, &group, longest) {
            return None;
        }
        if may_have(turn, &group, longest) {
            let found = smaller_in_blocks(turn, groups.group(at), below, weights);
            if found.is_some() {
                return found;
            }
        }
    }
    None
}

// The first of the heads of these blocks that is sought. The search ends at a block as it does at a group.
fn smaller_in_blocks(turn: Turn, blocks: &[Block], below: u64, weights: &[u32]) -> Option<Head>
    requires begun { pos 0 ≤ℤ turn.virtual_time }
    requires in_order { AreInOrder (all_heads blocks.now) }
    requires weights { All IsWeight weights.now }
    requires weighed { All (IsWeighed weights.now) (all_heads blocks.now) }
    ensures first { IfSome result (IsFirstThat (IsSought turn weights.now below) (all_heads blocks.now)) }
    ensures none { IfNone result (All (λ h. ¬ IsSought turn weights.now below h) (all_heads blocks.now)) }
{
    let longest = longest_below(below);
    for block in blocks {
        let heads = block.extent();
        if ends_before(turn, &heads, longest) {
            return None;
        }
        if may_have(turn, &heads, longest) {
            let found = smaller_in(turn, block.heads(), below, weights);
            if found.is_some() {
                return found;
            }
        }
    }
    None
}

// A length that no head with an estimate below this exceeds, in steps.
fn longest_below(below: u64) -> i128
    ensures { IsLongestBelow below result }
{
    length(below.min(GREATEST_COST), 1)
}

// Whether none of the heads that have this extent, and none after them, is eligible that is at most so long.
fn ends_before(turn: Turn, heads: &Extent, longest: i128) -> bool
    requires begun { pos 0 ≤ℤ turn.virtual_time }
    requires low { pos 0 ≤ℤ longest }
    requires high { longest ≤ℤ GREATEST_LENGTH }
    ensures { result ≡ true → EndsBefore turn heads.now longest }
{
    match heads.first {
        Some(first) => !is_in_reach(turn, first.finish, longest),
        None => false,
    }
}

// Whether one of the heads that have this extent may be eligible that is at most so long. If the shortest is longer
// none is.
fn may_have(turn: Turn, heads: &Extent, longest: i128) -> bool
    requires begun { pos 0 ≤ℤ turn.virtual_time }
    requires short { IsShortEnough heads.now }
    requires low { pos 0 ≤ℤ longest }
    requires high { longest ≤ℤ GREATEST_LENGTH }
    ensures { result ≡ false → NoneSoLongIsReached turn longest heads.now }
{
    match heads.first {
        Some(first) => {
            heads.shortest <= longest && is_in_reach(turn, first.finish, longest.min(heads.longest))
        }
        None => false,
    }
}

// The first of the heads that is sought.
fn smaller_in(turn: Turn, heads: &[Head], below: u64, weights: &[u32]) -> Option<Head>
    requires begun { pos 0 ≤ℤ turn.virtual_time }
    requires weighed { All (IsWeighed weights.now) heads.now }
    ensures first { IfSome result (IsFirstThat (IsSought turn weights.now below) heads.now) }
    ensures none { IfNone result (All (λ h. ¬ IsSought turn weights.now below h) heads.now) }
{
    for head in heads {
        if is_sought(turn, *head, below, weights) {
            return Some(*head);
        }
    }
    None
}

// Whether the head is eligible and has an estimate below this, in microseconds.
fn is_sought(turn: Turn, head: Head, below: u64, weights: &[u32]) -> bool
    requires begun { pos 0 ≤ℤ turn.virtual_time }
    requires weighed { IsWeighed weights.now head }
    ensures { IsTrue result ↔ IsSought turn weights.now below head }
{
    cost(head.len, weights[head.tenant as usize]) < below
        && is_in_reach(turn, head.finish, head.len)
}
