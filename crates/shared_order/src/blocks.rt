//! Blocks in a row.
ghost use Rattle.std.specs.Prelude.{◌≡◌, ◌≢◌, ◌≤◌, ◌<◌, ◌+◌, ◌++◌, [], ◌∷◌, IfOk, length, vec_capacity};
ghost use Rattle.std.specs.List.{All, Contains, remove};
ghost use Rattle.shared_order.specs.Heads.{IsSorted};
ghost use Rattle.shared_order.specs.Blocks.{block_at, HeadJoins, HeadLeaves, with_halves, with_joined};

use crate::block::{BLOCK, Block};
use crate::head::Head;
use std::alloc::{AllocError, Global};
use std::marker::Model;

/// Blocks that are in use, in a row, and blocks that have no heads and wait for their use. No call after `open` takes
/// memory.
#[derive(Drop)]
pub struct Blocks {
    used: Vec<Block>,
    spare: Vec<Block>,
}

impl Model for Blocks {
    ghost use Rattle.std.specs.Prelude.{length, vec_capacity};
    ghost use Rattle.shared_order.specs.Blocks.{BlocksView, KeepsBlocks};

    ghost Value = { BlocksView };

    ghost view = { λ b. record { used = b.used.items; spare = length b.spare.items } };

    ghost invariant = { λ b. KeepsBlocks b.used.items (vec_capacity b.used) b.spare.items (vec_capacity b.spare) };
}

impl Blocks {
    /// A row of `blocks` blocks, of which none is in use.
    pub fn open(alloc: Global, blocks: usize) -> Result<Blocks, AllocError>
        ensures { IfOk result (λ b. b ≡ record { used = []; spare = blocks }) }
    {
        let used = Vec::with_capacity(alloc, blocks)?;
        let spare = empty_blocks(alloc, blocks)?;
        Ok(Blocks { used, spare })
    }

    /// The blocks that are in use.
    #[inline]
    pub fn used(&self) -> &[Block]
        ensures { result.now ≡ self.now.used }
    {
        &self.used
    }

    /// Puts a first head into a first block.
    pub fn begin(&mut self, head: Head)
        requires none { self.old.used ≡ [] }
        requires room { 0 < self.old.spare }
        ensures used { self.new.used ≡ (head ∷ []) ∷ [] }
        ensures spare { self.new.spare + 1 ≡ self.old.spare }
    {
        let mut block = self.spare.take_last();
        block.insert(head);
        self.used.push_reserved(block);
    }

    /// Puts a head of a request that has none there into a block.
    pub fn insert(&mut self, at: usize, head: Head)
        requires known { at < length self.old.used }
        requires room { length (block_at self.old.used at) < BLOCK }
        requires new_request { All (λ h. h.request ≢ head.request) (block_at self.old.used at) }
        ensures used { HeadJoins self.old.used at head self.new.used }
        ensures spare { self.new.spare ≡ self.old.spare }
    {
        let block = &mut self.used[at];
        block.insert(head);
    }

    /// Takes a head out of its block.
    pub fn remove(&mut self, at: usize, head: Head)
        requires known { at < length self.old.used }
        requires there { Contains (block_at self.old.used at) head }
        ensures used { HeadLeaves self.old.used at head self.new.used }
        ensures spare { self.new.spare ≡ self.old.spare }
    {
        let block = &mut self.used[at];
        block.remove(head);
    }

    /// Splits a full block into two.
    pub fn split(&mut self, at: usize)
        requires known { at < length self.old.used }
        requires full { length (block_at self.old.used at) ≡ BLOCK }
        requires room { 0 < self.old.spare }
        ensures used { self.new.used ≡ with_halves self.old.used at }
        ensures spare { self.new.spare + 1 ≡ self.old.spare }
    {
        let mut next = self.spare.take_last();
        let block = &mut self.used[at];
        block.split(&mut next);
        // The row has room for all blocks.
        let _ = self.used.insert(at + 1, next);
    }

    /// Joins a block and the next one to one.
    pub fn join(&mut self, at: usize)
        requires known { at + 1 < length self.old.used }
        requires room { length (block_at self.old.used at) + length (block_at self.old.used (at + 1)) ≤ BLOCK }
        requires in_order { IsSorted (block_at self.old.used at ++ block_at self.old.used (at + 1)) }
        ensures used { self.new.used ≡ with_joined self.old.used at }
        ensures spare { self.new.spare ≡ self.old.spare + 1 }
    {
        let mut next = self.used.remove(at + 1);
        let block = &mut self.used[at];
        block.absorb(&mut next);
        self.spare.push_reserved(next);
    }

    /// Takes a block that has no heads out of use.
    pub fn close(&mut self, at: usize)
        requires known { at < length self.old.used }
        requires empty { block_at self.old.used at ≡ [] }
        ensures used { self.new.used ≡ remove self.old.used at }
        ensures spare { self.new.spare ≡ self.old.spare + 1 }
    {
        let block = self.used.remove(at);
        self.spare.push_reserved(block);
    }
}

/// `blocks` blocks that have no heads.
fn empty_blocks(alloc: Global, blocks: usize) -> Result<Vec<Block>, AllocError>
    ensures empty { IfOk result (λ v. All (λ b. b ≡ []) v.items) }
    ensures count { IfOk result (λ v. length v.items ≡ blocks) }
    ensures room { IfOk result (λ v. blocks ≤ vec_capacity v) }
{
    let mut spare = Vec::with_capacity(alloc, blocks)?;
    for _ in 0..blocks {
        spare.push_reserved(Block::open(alloc)?);
    }
    Ok(spare)
}
