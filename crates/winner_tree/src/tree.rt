//! The tree.
ghost use Rattle.std.specs.Prelude.{◌≡◌, ◌<◌, ◌≤◌, None, Some, IfOk, MatchOption, is_some, length, replicate, slice_set};
ghost use Rattle.winner_tree.specs.Order.{key_of, IsFirst, HasNoKey};
ghost use Rattle.winner_tree.specs.Winners.{AreWinners};

use crate::key::Key;
use crate::replay::set_leaf;
use std::alloc::{AllocError, Global};
use std::marker::Model;

/// The most leaves of a tree.
pub const MOST_LEAVES: u32 = 1048576;

/// Leaves, numbered from 0, of which each has a key or none. Contracts see the keys as a list by leaf.
#[derive(Drop)]
pub struct Tree {
    keys: Vec<Option<Key>>,
    // Two items that meet are neighbours, and a match reads the keys of the two leaves that they name and no others.
    winners: Vec<Option<u32>>,
}

impl Model for Tree {
    ghost use Rattle.std.specs.Prelude.{List, Option};
    ghost use Rattle.winner_tree.specs.declared.key.Key.{Key};
    ghost use Rattle.winner_tree.specs.Winners.{Keeps};

    ghost Value = { List (Option Key) };

    ghost view = { λ t. t.keys.items };

    ghost invariant = { λ t. Keeps t.keys.items t.winners.items };
}

impl Tree {
    /// A tree of 1 to 1,048,576 leaves of which none has a key.
    pub fn open(alloc: Global, leaves: u32) -> Result<Tree, AllocError>
        requires at_least_one { 1 ≤ leaves }
        requires in_range { leaves ≤ MOST_LEAVES }
        ensures { IfOk result (λ t. t ≡ replicate leaves None) }
    {
        let width = (leaves as usize).next_power_of_two();
        let keys = vec![in alloc; None; leaves as usize]?;
        let winners = vec![in alloc; None; 2 * width]?;
        Ok(Tree { keys, winners })
    }

    /// Gives a leaf a key or takes it away.
    #[inline(always)]
    pub fn set(&mut self, leaf: u32, key: Option<Key>)
        requires { leaf < length self.old }
        ensures { self.new ≡ slice_set self.old leaf key }
    {
        match key {
            Some(Key { a, b, c }) => self.put(leaf, a, b, c),
            None => self.take_out(leaf),
        }
    }

    // Gives a leaf a key. (Its parts are passed one by one: a key that was written to memory part by part, and is read
    // there as a whole at once, makes a processor wait.)
    #[inline(never)]
    fn put(&mut self, leaf: u32, a: i128, b: i128, c: u32)
        requires { leaf < length self.old }
        ensures { self.new ≡ slice_set self.old leaf (Some (record { a = a; b = b; c = c })) }
    {
        set_leaf(
            &mut self.keys,
            &mut self.winners,
            leaf,
            Some(Key { a, b, c }),
        );
    }

    // Takes a leaf's key away.
    #[inline(never)]
    fn take_out(&mut self, leaf: u32)
        requires { leaf < length self.old }
        ensures { self.new ≡ slice_set self.old leaf None }
    {
        set_leaf(&mut self.keys, &mut self.winners, leaf, None);
    }

    /// Whether a leaf has a key.
    pub fn has_key(&self, leaf: u32) -> bool
        requires { leaf < length self.now }
        ensures { result ≡ is_some (key_of self.now leaf) }
    {
        self.keys[leaf as usize].is_some()
    }

    /// The leaf with the least key, of equal keys the least leaf, and its key.
    pub fn first(&self) -> Option<(u32, Key)>
        ensures { MatchOption result (HasNoKey self.now) (λ e. IsFirst self.now e.0 e.1) }
    {
        let leaf = self.winners[1]?;
        let key = self.keys[leaf as usize]?;
        Some((leaf, key))
    }

    /// The leaf that wins each subtree, by item: the root is item 1, and below item k stand items 2k and 2k + 1.
    pub fn winners(&self) -> &[Option<u32>]
        ensures { AreWinners self.now result.now }
    {
        &self.winners
    }
}
