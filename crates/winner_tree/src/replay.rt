//! The matches on the way from a leaf to the root.
ghost use Rattle.std.specs.Prelude.{◌≡◌, ◌≢◌, ◌<◌, ◌↔◌, ℕ, false, None, Some, IsTrue, IfSome, IsSome, length, slice_set};
ghost use Rattle.winner_tree.specs.Order.{key_of, IsAhead};
ghost use Rattle.winner_tree.specs.Winners.{AreNeighbours, IsLesser, Keeps};

use crate::key::Key;

/// Gives a leaf a key or takes it away, and plays its matches again.
///
/// The way ends at the root, or where another leaf wins a match that it had won before: the items above have not
/// changed then. (It is inlined so that giving a key and taking it away have each the code that it needs.)
#[inline(always)]
pub fn set_leaf(keys: &mut [Option<Key>], winners: &mut [Option<u32>], leaf: u32, key: Option<Key>)
    requires known { leaf < length keys.old }
    requires kept { Keeps keys.old winners.old }
    ensures map { keys.new ≡ slice_set keys.old leaf key }
    ensures keeps { Keeps keys.new winners.new }
{
    keys[leaf as usize] = key;
    let mut node = winners.len() / 2 + leaf as usize;
    let mut winner = key.map(|_| leaf);
    'way: while !stands(winners[node], winner, leaf) {
        winners[node] = winner;
        if node == 1 {
            return;
        }
        winner = lesser(keys, winner, winners[neighbour(node)]);
        node /= 2;
    }
}

/// The item that stands beside another, below the same one: a match is between two such. (Beside the root, item 0.)
#[inline]
fn neighbour(item: usize) -> usize
    ensures { AreNeighbours item result }
{
    if item % 2 == 0 { item + 1 } else { item - 1 }
}

/// Whether a match goes to the leaf to which it went before, and that is not the leaf that has changed.
#[inline]
fn stands(before: Option<u32>, winner: Option<u32>, changed: u32) -> bool
    ensures { IsTrue result ↔ ((before ≡ winner) × (winner ≢ Some changed)) }
{
    match (before, winner) {
        (Some(leaf), Some(again)) => leaf == again && leaf != changed,
        (None, None) => true,
        _ => false,
    }
}

/// Of the leaves that two items name, the leaf that comes before the other.
#[inline]
fn lesser(keys: &[Option<Key>], one: Option<u32>, other: Option<u32>) -> Option<u32>
    requires has_key { IfSome one (λ l. IsSome (key_of keys.now l)) }
    requires other_has_key { IfSome other (λ r. IsSome (key_of keys.now r)) }
    requires apart { (l : ℕ) → one ≡ Some l → other ≢ Some l }
    ensures { IsLesser keys.now one other result }
{
    match (one, other) {
        (Some(l), Some(r)) if is_ahead(keys, l, r) => one,
        (Some(_), None) => one,
        _ => other,
    }
}

/// Whether one of two leaves that have keys comes before the other.
#[inline]
fn is_ahead(keys: &[Option<Key>], leaf: u32, other: u32) -> bool
    requires has_key { IsSome (key_of keys.now leaf) }
    requires other_has_key { IsSome (key_of keys.now other) }
    ensures ahead { IsTrue result → IsAhead keys.now leaf other }
    ensures behind { result ≡ false → leaf ≢ other → IsAhead keys.now other leaf }
{
    let key = keys[leaf as usize].unwrap();
    let second = keys[other as usize].unwrap();
    if key == second {
        leaf < other
    } else {
        key.is_before(&second)
    }
}
