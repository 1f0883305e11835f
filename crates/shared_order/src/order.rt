//! The order of all heads.
//!
//! Its blocks are as the leaves of a B-tree (Bayer and McCreight, 1972): a full one is split, and two neighbours that
//! have become small are joined. Above them stand groups of neighbours, with what a choice asks of all their heads. No
//! nodes are needed to find the block of a head: that is done by halving the row.
ghost use Rattle.std.specs.Prelude.{◌≡◌, ◌≢◌, ◌≤◌, ◌<◌, ◌+◌, ◌↔◌, [], IfOk, IsTrue, MatchOption, ℕ, length};
ghost use Rattle.std.specs.List.{All, Contains};
ghost use Rattle.shared_order.specs.Heads.{IsSorted, Gains};
ghost use Rattle.shared_order.specs.Blocks.{all_heads, block_at, block_count, room_in, NoneIsEmpty, IsBlockOf, AreSmall, IsSmallPair, IsThinned, IsRearranged, KeepsOrder};

use crate::block::{BLOCK, Block, HALF};
use crate::groups::Groups;
use crate::head::Head;
use std::alloc::{AllocError, Global};
use std::marker::Model;

/// Heads by finish, then by number, in blocks. Contracts see them as one list, and how many there is room for. No call
/// after `open` takes memory.
#[derive(Drop)]
pub struct Order {
    blocks: Groups,
}

impl Model for Order {
    ghost use Rattle.shared_order.specs.Blocks.{OrderView, all_heads, block_count, room_in, KeepsOrder};

    ghost Value = { OrderView };

    ghost view = { λ o. record { heads = all_heads o.blocks.used; room = room_in (block_count o.blocks) } };

    ghost invariant = { λ o. KeepsOrder o.blocks.used };
}

impl Order {
    /// An order that has no heads, and room for `most` at least.
    pub fn open(alloc: Global, most: u32) -> Result<Order, AllocError>
        ensures none { IfOk result (λ o. o.heads ≡ []) }
        ensures room { IfOk result (λ o. most ≤ o.room) }
    {
        let blocks = Groups::open(alloc, most as usize / (HALF / 2) + 2)?;
        Ok(Order { blocks })
    }

    /// The blocks in a row: each has heads, and they come before those of all later blocks.
    #[inline]
    pub fn blocks(&self) -> &[Block]
        ensures heads { all_heads result.now ≡ self.now.heads }
        ensures filled { NoneIsEmpty result.now }
        ensures sorted { IsSorted self.now.heads }
    {
        self.blocks.used()
    }

    /// The same blocks, in their groups.
    #[inline]
    pub fn groups(&self) -> &Groups
        ensures heads { all_heads result.now.used ≡ self.now.heads }
        ensures kept { KeepsOrder result.now.used }
    {
        &self.blocks
    }

    /// Puts in a head of a request that has none here.
    pub fn insert(&mut self, head: Head)
        requires room { length self.old.heads < self.old.room }
        requires new_request { All (λ h. h.request ≢ head.request) self.old.heads }
        ensures gains { Gains self.old.heads head self.new.heads }
        ensures room { self.new.room ≡ self.old.room }
    {
        if self.blocks.used().is_empty() {
            self.blocks.begin(head);
            return;
        }
        let at = room_at(&mut self.blocks, &head);
        self.blocks.insert(at, head);
    }

    /// Takes out a head that stands here.
    pub fn remove(&mut self, head: Head)
        requires { Contains self.old.heads head }
        ensures gains { Gains self.new.heads head self.old.heads }
        ensures room { self.new.room ≡ self.old.room }
    {
        let at = block_of(self.blocks.used(), &head);
        self.blocks.remove(at, head);
        settle(&mut self.blocks, at);
    }
}

/// The block that a head belongs to, with room for it: where it is full it is split.
fn room_at(blocks: &mut Groups, head: &Head) -> usize
    requires some { 0 < length blocks.old.used }
    requires kept { KeepsOrder blocks.old.used }
    requires room { length (all_heads blocks.old.used) < room_in (block_count blocks.old) }
    ensures rearranged { IsRearranged blocks.old blocks.new }
    ensures place { IsBlockOf head.now blocks.new.used result }
    ensures room { length (block_at blocks.new.used result) < BLOCK }
{
    let at = block_of(blocks.used(), head);
    if blocks.used()[at].heads().len() < BLOCK {
        return at;
    }
    blocks.split(at);
    if blocks.used()[at + 1].is_after(head) {
        at
    } else {
        at + 1
    }
}

/// Joins the block that has lost a head with a neighbour where both are small now, or takes it out of use where it was
/// its last head.
fn settle(blocks: &mut Groups, at: usize)
    requires { IsThinned blocks.old.used at }
    ensures { IsRearranged blocks.old blocks.new }
{
    if blocks.used()[at].heads().is_empty() {
        blocks.close(at);
    } else if let Some(first) = small_pair(blocks.used(), at) {
        blocks.join(first);
    }
}

/// Of a block and its neighbours two that have at most half a block of heads together: the first of them.
fn small_pair(blocks: &[Block], at: usize) -> Option<usize>
    requires { at < length blocks.now }
    ensures { MatchOption result ((first : ℕ) → ¬ IsSmallPair blocks.now at first) (IsSmallPair blocks.now at) }
{
    if are_small(blocks, at) {
        return Some(at);
    }
    if at > 0 && are_small(blocks, at - 1) {
        return Some(at - 1);
    }
    None
}

/// Whether a block and the next one, if there is one, have at most half a block of heads together.
fn are_small(blocks: &[Block], at: usize) -> bool
    requires { at < length blocks.now }
    ensures { IsTrue result ↔ AreSmall blocks.now at }
{
    if blocks.len() - at < 2 {
        return false;
    }
    blocks[at].heads().len() + blocks[at + 1].heads().len() <= HALF
}

/// Where the block stands that a head belongs to: the last one that does not wholly come after it, or else the first.
fn block_of(blocks: &[Block], head: &Head) -> usize
    requires some { 0 < length blocks.now }
    requires filled { NoneIsEmpty blocks.now }
    requires sorted { IsSorted (all_heads blocks.now) }
    ensures { IsBlockOf head.now blocks.now result }
{
    let mut low = 0;
    let mut high = blocks.len();
    'halve: while high - low > 1 {
        let middle = low + (high - low) / 2;
        if blocks[middle].is_after(head) {
            high = middle;
        } else {
            low = middle;
        }
    }
    low
}
