//! The keys of a head in the trees of a worker.
ghost use Rattle.std.specs.Prelude.{◌≡◌, ◌↔◌, ◌≤ℤ◌, IsTrue, pos};
ghost use Rattle.eligible_index.specs.Trees.{later_key, Stands};

use fq_model::config::Policy;
use tag_rules::head_keys::Keys;
use tag_rules::turn::Turn;
use winner_tree::Key;

/// The keys that the head of these keys, or none, has in the tree of those that are not eligible, and in the other.
pub fn keys_in_trees(at: Turn, keys: Option<Keys>) -> (Option<Key>, Option<Key>)
    ensures { Stands at keys result.0 result.1 }
{
    let Some(keys) = keys else {
        return (None, None);
    };
    let later = later_key(at, keys);
    if at.policy == Policy::Wfq || is_due(at, later) {
        (None, Some(by_finish(later)))
    } else {
        (Some(later), None)
    }
}

// The key of a head that is not eligible.
fn later_key(at: Turn, keys: Keys) -> Key
    ensures { result ≡ later_key at keys }
{
    Key {
        a: at.eligible_key(keys),
        b: keys.finish(),
        c: keys.request,
    }
}

/// The key of a head once it is eligible, from its key before.
pub fn by_finish(later: Key) -> Key
    ensures { result ≡ record { a = later.b; b = pos 0; c = later.c } }
{
    Key {
        a: later.b,
        b: 0,
        c: later.c,
    }
}

/// Whether a head that has this key in the first tree is eligible, but under WFQ, where each is.
pub fn is_due(at: Turn, later: Key) -> bool
    ensures { IsTrue result ↔ (later.a ≤ℤ at.virtual_time) }
{
    later.a <= at.virtual_time
}
