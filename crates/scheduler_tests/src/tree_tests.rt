use crate::samples::{expect_same, send_away};
use std::alloc::Global;
use std::process::Abort;
use winner_tree::{Key, Tree};

// Of three leaves two have keys, then one, then none. At first these are the winners.
fn three<R: Abort>(rt: &R, alloc: Global, winners: &[Option<u32>]) {
    let mut tree = Tree::open(alloc, 3).expect(rt, "memory for a tree");
    let key = Key { a: 5, b: 1, c: 0 };
    let lesser = Key { a: 5, b: 0, c: 9 };
    tree.set(0, Some(key));
    tree.set(2, Some(lesser));
    let of_two = tree.first();
    expect_same(rt, tree.winners(), winners);
    tree.set(2, None);
    let of_one = tree.first();
    tree.set(0, None);
    let wanted = [Some((2, lesser)), Some((0, key)), None];
    expect_same(rt, [of_two, of_one, tree.first()], wanted);
    send_away(tree);
}

#[test]
fn three_leaves(rt: HostRuntime) {
    let winners = [
        None,
        Some(2),
        Some(0),
        Some(2),
        Some(0),
        None,
        Some(2),
        None,
    ];
    three(&rt, rt.alloc(), &winners);
}
