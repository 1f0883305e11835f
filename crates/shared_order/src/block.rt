//! A block of heads.
ghost use Rattle.std.specs.Prelude.{◌≡◌, ◌≢◌, ◌≤◌, ◌<◌, ◌+◌, ◌++◌, ◌↔◌, [], IfOk, IsTrue, length, take, drop, slice_get};
ghost use Rattle.std.specs.List.{All, Contains};
ghost use Rattle.shared_order.specs.Heads.{HeadBefore, IsSorted, IsPlaceOf, Gains, greatest_length, lengths_of, with_length};
ghost use Rattle.shared_order.specs.Extents.{extent_of};

use crate::extent::Extent;
use crate::head::Head;
use crate::lengths::Lengths;
use std::alloc::{AllocError, Global};
use std::marker::Model;

/// The most heads of a block.
pub const BLOCK: usize = 32;

/// Half of a block: the number of heads of each part after a split.
pub const HALF: usize = 16;

/// Heads in order, at most `BLOCK`. Contracts see them as a list.
#[derive(Drop)]
pub struct Block {
    heads: Vec<Head>,
    lengths: Lengths,
}

impl Model for Block {
    ghost use Rattle.std.specs.Prelude.{List, vec_capacity};
    ghost use Rattle.shared_order.specs.Heads.{HeadView};

    ghost Value = { List HeadView };

    ghost use Rattle.shared_order.specs.Blocks.{KeepsBlock};

    ghost view = { λ b. b.heads.items };

    ghost invariant = { λ b. KeepsBlock b.heads.items (vec_capacity b.heads) b.lengths };
}

impl Block {
    /// A block that has no heads, and room for `BLOCK` of them.
    pub fn open(alloc: Global) -> Result<Block, AllocError>
        ensures { IfOk result (λ b. b ≡ []) }
    {
        let heads = Vec::with_capacity(alloc, BLOCK)?;
        let lengths = Lengths::of_none();
        Ok(Block { heads, lengths })
    }

    /// The heads, by finish, then by number.
    #[inline]
    pub fn heads(&self) -> &[Head]
        ensures heads { result.now ≡ self.now }
        ensures sorted { IsSorted self.now }
        ensures few { length self.now ≤ BLOCK }
    {
        &self.heads
    }

    /// The greatest length of a head, in steps; 0 if there is none.
    #[inline]
    pub fn longest(&self) -> i128
        ensures { result ≡ greatest_length self.now }
    {
        self.lengths.longest
    }

    /// The greatest and the least length of a head.
    #[inline]
    pub fn lengths(&self) -> Lengths
        ensures { result ≡ lengths_of self.now }
    {
        self.lengths
    }

    /// The head that comes before all others.
    #[inline]
    pub fn first(&self) -> Option<Head>
        ensures { result ≡ slice_get self.now 0 }
    {
        self.heads.first().copied()
    }

    /// The first head, and the greatest and the least length.
    #[inline]
    pub fn extent(&self) -> Extent
        ensures { result ≡ extent_of self.now }
    {
        Extent {
            first: self.first(),
            longest: self.lengths.longest,
            shortest: self.lengths.shortest,
        }
    }

    /// Whether all heads come after this one.
    #[inline]
    pub fn is_after(&self, head: &Head) -> bool
        ensures { IsTrue result ↔ All (HeadBefore head.now) self.now }
    {
        match self.heads.first() {
            Some(first) => head.is_before(first),
            None => true,
        }
    }

    /// Puts in a head of a request that has none here.
    pub fn insert(&mut self, head: Head)
        requires room { length self.old < BLOCK }
        requires new_request { All (λ h. h.request ≢ head.request) self.old }
        ensures gains { Gains self.old head self.new }
        ensures sorted { IsSorted self.new }
    {
        let at = place_of(&self.heads, &head);
        // The room was taken when the block was opened.
        let _ = self.heads.insert(at, head);
        self.lengths = self.lengths.with(head.len);
    }

    /// Takes out a head that stands here.
    pub fn remove(&mut self, head: Head)
        requires { Contains self.old head }
        ensures gains { Gains self.new head self.old }
        ensures sorted { IsSorted self.new }
    {
        let at = place_of(&self.heads, &head);
        self.heads.remove(at);
        self.lengths = lengths_without(&self.heads, head.len, self.lengths);
    }

    /// Moves the second half of a full block into an empty one.
    pub fn split(&mut self, next: &mut Block)
        requires full { length self.old ≡ BLOCK }
        requires empty { next.old ≡ [] }
        ensures first { self.new ≡ take HALF self.old }
        ensures second { next.new ≡ drop HALF self.old }
    {
        // Each block has room for `BLOCK` heads, so neither this nor `absorb` takes memory.
        let _ = next.heads.extend_from_slice(&self.heads[HALF..]);
        next.lengths = lengths_in(&next.heads);
        self.heads.truncate(HALF);
        self.lengths = lengths_in(&self.heads);
    }

    /// Moves all heads of the block that comes next to the end of this one.
    pub fn absorb(&mut self, next: &mut Block)
        requires room { length self.old + length next.old ≤ BLOCK }
        requires in_order { IsSorted (self.old ++ next.old) }
        ensures all { self.new ≡ self.old ++ next.old }
        ensures rest { next.new ≡ [] }
    {
        let _ = self.heads.extend_from_slice(&next.heads);
        self.lengths = self.lengths.join(next.lengths);
        next.heads.clear();
        next.lengths = Lengths::of_none();
    }
}

/// How many of these heads come before this one.
fn place_of(heads: &[Head], head: &Head) -> usize
    requires { IsSorted heads.now }
    ensures { IsPlaceOf head.now heads.now result }
{
    heads.partition_point(|other| other.is_before(head))
}

/// The greatest and the least length of these heads.
fn lengths_in(heads: &[Head]) -> Lengths
    ensures { result ≡ lengths_of heads.now }
{
    let mut lengths = Lengths::of_none();
    for head in heads {
        lengths = lengths.with(head.len);
    }
    lengths
}

/// The lengths of these heads, which were `lengths` with one more of this length.
fn lengths_without(heads: &[Head], len: i128, lengths: Lengths) -> Lengths
    requires { lengths ≡ with_length (lengths_of heads.now) len }
    ensures { result ≡ lengths_of heads.now }
{
    if lengths.has(len) {
        lengths_in(heads)
    } else {
        lengths
    }
}
