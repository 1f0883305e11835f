//! Blocks in groups.
ghost use Rattle.std.specs.Prelude.{◌≡◌, ◌≢◌, ◌≤◌, ◌<◌, ◌+◌, ◌++◌, [], ◌∷◌, IfOk, length, take, vec_capacity};
ghost use Rattle.std.specs.List.{All, Contains, remove};
ghost use Rattle.shared_order.specs.Heads.{IsSorted, lengths_of};
ghost use Rattle.shared_order.specs.Blocks.{all_heads, block_at, NoneIsEmpty, HeadJoins, HeadLeaves, with_halves, with_joined};
ghost use Rattle.shared_order.specs.Extents.{extent_of};
ghost use Rattle.shared_order.specs.Groups.{group_at, group_count, group_heads, AreLengths, AreAllLengths};

use crate::block::{BLOCK, Block};
use crate::blocks::Blocks;
use crate::extent::Extent;
use crate::head::Head;
use crate::lengths::Lengths;
use std::alloc::{AllocError, Global};
use std::marker::Model;

/// The most blocks of a group.
pub const GROUP: usize = 32;

/// Blocks in a row, and for each group of neighbours the greatest and the least length of a head in it, by which a
/// search passes over all of them at once. No call after `open` takes memory.
///
/// The groups go by place. So a block that comes into the row or goes out of it shifts all later ones, and the lengths
/// from there on are made anew, as the later places of the row are moved. There are many changes between two of these.
#[derive(Drop)]
pub struct Groups {
    blocks: Blocks,
    lengths: Vec<Lengths>,
}

impl Model for Groups {
    ghost use Rattle.std.specs.Prelude.{vec_capacity};
    ghost use Rattle.shared_order.specs.Blocks.{BlocksView};
    ghost use Rattle.shared_order.specs.Groups.{KeepsGroups};

    ghost Value = { BlocksView };

    ghost view = { λ g. g.blocks };

    ghost invariant = { λ g. KeepsGroups g.blocks g.lengths.items (vec_capacity g.lengths) };
}

impl Groups {
    /// A row of `blocks` blocks, of which none is in use.
    pub fn open(alloc: Global, blocks: usize) -> Result<Groups, AllocError>
        ensures { IfOk result (λ g. g ≡ record { used = []; spare = blocks }) }
    {
        let lengths = Vec::with_capacity(alloc, blocks.div_ceil(GROUP))?;
        let blocks = Blocks::open(alloc, blocks)?;
        Ok(Groups { blocks, lengths })
    }

    /// The blocks that are in use.
    #[inline]
    pub fn used(&self) -> &[Block]
        ensures { result.now ≡ self.now.used }
    {
        self.blocks.used()
    }

    /// The number of groups.
    #[inline]
    pub fn count(&self) -> usize
        ensures { result ≡ group_count (length self.now.used) }
    {
        self.lengths.len()
    }

    /// The blocks of a group.
    #[inline]
    pub fn group(&self, at: usize) -> &[Block]
        requires { at < group_count (length self.now.used) }
        ensures { result.now ≡ group_at self.now.used at }
    {
        blocks_of(self.blocks.used(), at)
    }

    /// The first head of a group, and the greatest and the least length of one in it.
    #[inline]
    pub fn extent(&self, at: usize) -> Extent
        requires known { at < group_count (length self.now.used) }
        requires filled { NoneIsEmpty self.now.used }
        ensures { result ≡ extent_of (group_heads self.now.used at) }
    {
        let lengths = self.lengths[at];
        Extent {
            first: self.blocks.used()[at * GROUP].first(),
            longest: lengths.longest,
            shortest: lengths.shortest,
        }
    }

    /// Puts a first head into a first block.
    pub fn begin(&mut self, head: Head)
        requires none { self.old.used ≡ [] }
        requires room { 0 < self.old.spare }
        ensures used { self.new.used ≡ (head ∷ []) ∷ [] }
        ensures spare { self.new.spare + 1 ≡ self.old.spare }
    {
        self.blocks.begin(head);
        renew(&mut self.lengths, self.blocks.used(), 0);
    }

    /// Puts a head of a request that has none there into a block.
    pub fn insert(&mut self, at: usize, head: Head)
        requires known { at < length self.old.used }
        requires room { length (block_at self.old.used at) < BLOCK }
        requires new_request { All (λ h. h.request ≢ head.request) (block_at self.old.used at) }
        ensures used { HeadJoins self.old.used at head self.new.used }
        ensures spare { self.new.spare ≡ self.old.spare }
    {
        self.blocks.insert(at, head);
        let lengths = &mut self.lengths[at / GROUP];
        *lengths = lengths.with(head.len);
    }

    /// Takes a head out of its block.
    pub fn remove(&mut self, at: usize, head: Head)
        requires known { at < length self.old.used }
        requires there { Contains (block_at self.old.used at) head }
        ensures used { HeadLeaves self.old.used at head self.new.used }
        ensures spare { self.new.spare ≡ self.old.spare }
    {
        self.blocks.remove(at, head);
        let group = at / GROUP;
        if self.lengths[group].has(head.len) {
            self.lengths[group] = lengths_in(blocks_of(self.blocks.used(), group));
        }
    }

    /// Splits a full block into two.
    pub fn split(&mut self, at: usize)
        requires known { at < length self.old.used }
        requires full { length (block_at self.old.used at) ≡ BLOCK }
        requires room { 0 < self.old.spare }
        ensures used { self.new.used ≡ with_halves self.old.used at }
        ensures spare { self.new.spare + 1 ≡ self.old.spare }
    {
        self.blocks.split(at);
        renew(&mut self.lengths, self.blocks.used(), at / GROUP);
    }

    /// Joins a block and the next one to one.
    pub fn join(&mut self, at: usize)
        requires known { at + 1 < length self.old.used }
        requires room { length (block_at self.old.used at) + length (block_at self.old.used (at + 1)) ≤ BLOCK }
        requires in_order { IsSorted (block_at self.old.used at ++ block_at self.old.used (at + 1)) }
        ensures used { self.new.used ≡ with_joined self.old.used at }
        ensures spare { self.new.spare ≡ self.old.spare + 1 }
    {
        self.blocks.join(at);
        renew(&mut self.lengths, self.blocks.used(), at / GROUP);
    }

    /// Takes a block that has no heads out of use.
    pub fn close(&mut self, at: usize)
        requires known { at < length self.old.used }
        requires empty { block_at self.old.used at ≡ [] }
        ensures used { self.new.used ≡ remove self.old.used at }
        ensures spare { self.new.spare ≡ self.old.spare + 1 }
    {
        self.blocks.close(at);
        renew(&mut self.lengths, self.blocks.used(), at / GROUP);
    }
}

/// The blocks of a group.
fn blocks_of(blocks: &[Block], at: usize) -> &[Block]
    requires { at < group_count (length blocks.now) }
    ensures { result.now ≡ group_at blocks.now at }
{
    let from = at * GROUP;
    &blocks[from..blocks.len().min(from + GROUP)]
}

/// The greatest and the least length of a head in these blocks.
fn lengths_in(blocks: &[Block]) -> Lengths
    ensures { result ≡ lengths_of (all_heads blocks.now) }
{
    let mut lengths = Lengths::of_none();
    for block in blocks {
        lengths = lengths.join(block.lengths());
    }
    lengths
}

/// Makes the lengths of the groups anew from this group on.
fn renew(lengths: &mut Vec<Lengths>, blocks: &[Block], from: usize)
    requires known { from ≤ group_count (length blocks.now) }
    requires before { from ≤ length lengths.old.items }
    requires kept { AreLengths blocks.now (take from lengths.old.items) }
    requires room { group_count (length blocks.now) ≤ vec_capacity lengths.old }
    ensures lengths { AreAllLengths blocks.now lengths.new.items }
    ensures capacity { vec_capacity lengths.new ≡ vec_capacity lengths.old }
{
    lengths.truncate(from);
    for group in from..blocks.len().div_ceil(GROUP) {
        lengths.push_reserved(lengths_in(blocks_of(blocks, group)));
    }
}
