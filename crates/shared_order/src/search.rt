//! The choice among the heads of an order.
ghost use Rattle.std.specs.Prelude.{◌≡◌, ◌↔◌, ℤ, pos, ◌+ℤ◌, ◌≤ℤ◌, [], ◌∷◌, false, IsTrue, IfSome, IfNone};
ghost use Rattle.std.specs.List.{All};
ghost use Rattle.shared_order.specs.Reach.{key_by_finish, Reaches, IsInReach};
ghost use Rattle.shared_order.specs.Heads.{IsSorted};
ghost use Rattle.shared_order.specs.Blocks.{all_heads, KeepsOrder};
ghost use Rattle.shared_order.specs.Extents.{extent_of, IsShortEnough, NoneIsReached, NoneIsSooner};
ghost use Rattle.shared_order.specs.Search.{AreInRange, AreInOrder, AreInLimits, IsReached, IsSooner, IsFirstThat, IsLeast, TakesSoonest};
ghost use Rattle.shared_order.specs.Mirrors.{IsChosen};

use crate::block::Block;
use crate::extent::Extent;
use crate::groups::Groups;
use crate::head::Head;
use crate::order::Order;
use fq_model::config::Policy;
use fq_model::limits::{GREATEST_LENGTH, GREATEST_START};
use tag_rules::turn::Turn;
use vt_fixed::part;

/// The choice: the first eligible head, or, where none is eligible, the head that becomes eligible soonest.
pub fn choice(turn: Turn, order: &Order) -> Option<Head>
    requires begun { pos 0 ≤ℤ turn.virtual_time }
    requires in_range { AreInRange order.now.heads }
    ensures sorted { IsSorted order.now.heads }
    ensures chosen { IfSome result (IsChosen turn order.now.heads) }
    ensures none { IfNone result (order.now.heads ≡ []) }
{
    let groups = order.groups();
    match first_eligible(turn, groups) {
        Some(head) => Some(head),
        None => soonest(turn, groups),
    }
}

/// The eligible head that comes first in the order.
///
/// Where a head that finishes with the first of a group and is as long as the longest in it would not be eligible, no
/// head of the group is, and the group is passed over. In the other groups, so is a block.
pub(crate) fn first_eligible(turn: Turn, groups: &Groups) -> Option<Head>
    requires begun { pos 0 ≤ℤ turn.virtual_time }
    requires kept { KeepsOrder groups.now.used }
    requires in_range { AreInRange (all_heads groups.now.used) }
    ensures first { IfSome result (IsFirstThat (IsReached turn) (all_heads groups.now.used)) }
    ensures none { IfNone result (All (λ h. ¬ IsReached turn h) (all_heads groups.now.used)) }
{
    for at in 0..groups.count() {
        if may_reach(turn, &groups.extent(at)) {
            let head = first_in_blocks(turn, groups.group(at));
            if head.is_some() {
                return head;
            }
        }
    }
    None
}

/// The head that becomes eligible soonest: by eligible key, then by finish, then by number.
///
/// A group or a block is passed over where a head that finishes with the first and is as long as the longest in it
/// would become eligible no sooner than the soonest head before it.
pub(crate) fn soonest(turn: Turn, groups: &Groups) -> Option<Head>
    requires kept { KeepsOrder groups.now.used }
    requires in_range { AreInRange (all_heads groups.now.used) }
    ensures soonest { IfSome result (IsLeast (IsSooner turn) (all_heads groups.now.used)) }
    ensures none { IfNone result (all_heads groups.now.used ≡ []) }
{
    let mut best: Option<Candidate> = None;
    for at in 0..groups.count() {
        best = with_group(turn, best, &groups.extent(at), groups.group(at));
    }
    best.map(|candidate| candidate.head)
}

// A head and its eligible key, in steps.
#[derive(Clone, Copy, Debug, PartialEq, Eq)]
struct Candidate {
    head: Head,
    key: i128,
}

// Whether one of the heads that have this extent may be eligible.
fn may_reach(turn: Turn, heads: &Extent) -> bool
    requires begun { pos 0 ≤ℤ turn.virtual_time }
    requires short { IsShortEnough heads.now }
    ensures { result ≡ false → NoneIsReached turn heads.now }
{
    match heads.first {
        Some(first) => is_in_reach(turn, first.finish, heads.longest),
        None => false,
    }
}

// The first of the heads of these blocks that is eligible.
fn first_in_blocks(turn: Turn, blocks: &[Block]) -> Option<Head>
    requires begun { pos 0 ≤ℤ turn.virtual_time }
    requires in_order { AreInOrder (all_heads blocks.now) }
    ensures first { IfSome result (IsFirstThat (IsReached turn) (all_heads blocks.now)) }
    ensures none { IfNone result (All (λ h. ¬ IsReached turn h) (all_heads blocks.now)) }
{
    for block in blocks {
        if may_reach(turn, &block.extent()) {
            let found = first_in(turn, block.heads());
            if found.is_some() {
                return found;
            }
        }
    }
    None
}

// The first of the heads that is eligible.
fn first_in(turn: Turn, heads: &[Head]) -> Option<Head>
    requires begun { pos 0 ≤ℤ turn.virtual_time }
    ensures first { IfSome result (IsFirstThat (IsReached turn) heads.now) }
    ensures none { IfNone result (All (λ h. ¬ IsReached turn h) heads.now) }
{
    for head in heads {
        if is_in_reach(turn, head.finish, head.len) {
            return Some(*head);
        }
    }
    None
}

// The soonest of the best so far and of the heads of a group, which has this extent and these blocks.
fn with_group(
    turn: Turn,
    best: Option<Candidate>,
    group: &Extent,
    blocks: &[Block],
) -> Option<Candidate>
    requires in_range { AreInRange (all_heads blocks.now) }
    requires extent { group.now ≡ extent_of (all_heads blocks.now) }
    ensures { TakesSoonest turn best (all_heads blocks.now) result }
{
    if may_lead(turn, &best, group) {
        with_blocks(turn, best, blocks)
    } else {
        best
    }
}

// The soonest of the best so far and of the heads of these blocks.
fn with_blocks(turn: Turn, best: Option<Candidate>, blocks: &[Block]) -> Option<Candidate>
    requires { AreInRange (all_heads blocks.now) }
    ensures { TakesSoonest turn best (all_heads blocks.now) result }
{
    let mut best = best;
    for block in blocks {
        best = with_block(turn, best, block);
    }
    best
}

// The soonest of the best so far and of the heads of a block.
fn with_block(turn: Turn, best: Option<Candidate>, block: &Block) -> Option<Candidate>
    requires { AreInRange block.now }
    ensures { TakesSoonest turn best block.now result }
{
    if may_lead(turn, &best, &block.extent()) {
        with_heads(turn, best, block.heads())
    } else {
        best
    }
}

// Whether one of the heads that have this extent may become eligible sooner than the best so far, whose key it would
// have to undercut.
fn may_lead(turn: Turn, best: &Option<Candidate>, heads: &Extent) -> bool
    requires { IsShortEnough heads.now }
    ensures { result ≡ false → NoneIsSooner turn best.now heads.now }
{
    let Some(first) = heads.first else {
        return false;
    };
    match best {
        Some(best) => key(turn, first.finish, heads.longest) < best.key,
        None => true,
    }
}

// The soonest of the best so far and of these heads.
fn with_heads(turn: Turn, best: Option<Candidate>, heads: &[Head]) -> Option<Candidate>
    ensures { TakesSoonest turn best heads.now result }
{
    let mut best = best;
    for head in heads {
        best = with_head(turn, best, *head);
    }
    best
}

// The soonest of the best so far and of a head that comes later in the order: of equal keys the best stays.
fn with_head(turn: Turn, best: Option<Candidate>, head: Head) -> Option<Candidate>
    ensures { TakesSoonest turn best (head ∷ []) result }
{
    let key = key(turn, head.finish, head.len);
    match best {
        Some(best) if best.key <= key => Some(best),
        _ => Some(Candidate { head, key }),
    }
}

// The virtual time from which on a head with this finish and this length is eligible, in steps.
fn key(turn: Turn, finish: i128, len: i128) -> i128
    requires { AreInLimits finish len }
    ensures { result ≡ key_by_finish turn finish len }
{
    match turn.policy {
        Policy::Wfq | Policy::Wf2q | Policy::Msf2q => finish - len,
        Policy::TwoDfq | Policy::TwoDfqPlus => finish - len - part(len, turn.worker, turn.workers),
    }
}

// Whether a head with this finish and this length is eligible. Virtual time is 0 at least, so that no product leaves
// the range of its type.
pub(crate) fn is_in_reach(turn: Turn, finish: i128, len: i128) -> bool
    requires begun { pos 0 ≤ℤ turn.virtual_time }
    requires in_limits { AreInLimits finish len }
    ensures { IsTrue result ↔ IsInReach turn finish len }
{
    finish <= turn.virtual_time || reaches(turn, (finish - turn.virtual_time) as u128, len as u128)
}

// Whether a head of this length that finishes `ahead` steps after virtual time is eligible.
fn reaches(turn: Turn, ahead: u128, len: u128) -> bool
    requires near { pos ahead ≤ℤ (GREATEST_START +ℤ GREATEST_LENGTH) }
    requires short { pos len ≤ℤ GREATEST_LENGTH }
    ensures { IsTrue result ↔ Reaches turn.policy turn.worker turn.workers (pos ahead) (pos len) }
{
    match turn.policy {
        Policy::Wfq => true,
        Policy::Wf2q | Policy::Msf2q => ahead <= len,
        Policy::TwoDfq | Policy::TwoDfqPlus => {
            let workers = turn.workers as u128;
            workers * ahead <= (workers + turn.worker as u128) * len
        }
    }
}
