//! A tree whose leaves are marked where they have keys.
ghost use Rattle.std.specs.Prelude.{◌≡◌, ◌<◌, ◌≤◌, IfOk, MatchOption, None, length, replicate, slice_set};
ghost use Rattle.winner_tree.specs.Order.{HasNoKey, IsFirst};

use std::alloc::{AllocError, Global};
use std::marker::Model;
use winner_tree::tree::MOST_LEAVES;
use winner_tree::{Key, Tree};

/// A tree of winners, and beside it which of its leaves have a key. The marks are small and lie close together: where a
/// leaf that has no key gets none, the tree is not looked at.
#[derive(Drop)]
pub struct Marked {
    tree: Tree,
    marks: Vec<bool>,
}

impl Model for Marked {
    ghost use Rattle.std.specs.Prelude.{◌≡◌, List, Option, map, is_some};
    ghost use Rattle.winner_tree.specs.declared.key.Key.{Key};

    ghost Value = { List (Option Key) };

    ghost view = { λ m. m.tree };

    ghost invariant = { λ m. m.marks.items ≡ map (λ key. is_some key) m.tree };
}

impl Marked {
    /// A tree of `leaves` leaves, none of which has a key.
    pub fn open(alloc: Global, leaves: u32) -> Result<Marked, AllocError>
        requires some { 1 ≤ leaves }
        requires few { leaves ≤ MOST_LEAVES }
        ensures { IfOk result (λ m. m ≡ replicate leaves None) }
    {
        let tree = Tree::open(alloc, leaves)?;
        let marks = vec![in alloc; false; leaves as usize]?;
        Ok(Marked { tree, marks })
    }

    /// Gives a leaf a key or takes it away.
    pub fn set(&mut self, leaf: u32, key: Option<Key>)
        requires { leaf < length self.old }
        ensures { self.new ≡ slice_set self.old leaf key }
    {
        if self.marks[leaf as usize] || key.is_some() {
            self.marks[leaf as usize] = key.is_some();
            self.tree.set(leaf, key);
        }
    }

    /// The leaf with the least key, of equal keys the least leaf, and its key.
    pub fn first(&self) -> Option<(u32, Key)>
        ensures { MatchOption result (HasNoKey self.now) (λ e. IsFirst self.now e.0 e.1) }
    {
        self.tree.first()
    }

    /// The tree.
    pub fn tree(&self) -> &Tree
        ensures { result.now ≡ self.now }
    {
        &self.tree
    }
}
