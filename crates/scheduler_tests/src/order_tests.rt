//! Blocks that fill, split, empty and join.
ghost use Rattle.std.specs.Prelude.{◌≡◌, ◌<◌, ◌≤◌};
ghost use Rattle.scheduler_tests.specs.Numbered.{numbered, HasNumbers};

use crate::samples::{expect_same, expect_same_at};
use shared_order::block::Block;
use shared_order::head::Head;
use shared_order::order::Order;
use std::alloc::Global;
use std::process::Abort;

fn head(number: u32) -> Head
    requires { number < 100 }
    ensures { result ≡ numbered number }
{
    Head {
        finish: i128::from(1000 + number),
        len: i128::from(100 - number),
        tenant: number,
        request: number,
    }
}

// An order of the heads 0 to 69.
fn seventy<R: Abort>(rt: &R, alloc: Global) -> Order
    ensures { HasNumbers result.heads 0 70 }
{
    let mut order = Order::open(alloc, 70).expect(rt, "memory for heads");
    for number in 0..70 {
        order.insert(head(number));
    }
    order
}

// Takes out the heads from one number on to before another.
fn take_out(order: &mut Order, from: u32, to: u32)
    requires high { to ≤ 70 }
    requires there { HasNumbers order.old.heads from to }
    ensures { HasNumbers order.old.heads to 70 → HasNumbers order.new.heads to 70 }
{
    for number in from..to {
        order.remove(head(number));
    }
}

// Whether a block has this number of heads, this greatest length and this first tenant.
fn is_block(block: &Block, heads: usize, longest: i128, first: u32) -> bool {
    let Some(head) = block.first() else {
        return false;
    };
    block.heads().len() == heads && block.longest() == longest && head.tenant == first
}

// The blocks are these, each by the number of its heads, their greatest length and its first tenant.
fn expect_blocks<R: Abort>(rt: &R, blocks: &[Block], wanted: &[(usize, i128, u32)]) {
    expect_same(rt, blocks.len(), wanted.len());
    let mut rest = blocks.iter();
    for (heads, longest, first) in wanted {
        let block = rest.next().expect(rt, "one more block");
        expect_same_at(rt, first, is_block(block, *heads, *longest, *first), true);
    }
}

// The 70 heads are in these blocks.
fn expect_seventy<R: Abort>(rt: &R, alloc: Global, wanted: &[(usize, i128, u32)]) {
    let order = seventy(rt, alloc);
    expect_blocks(rt, order.blocks(), wanted);
}

// A block splits at its 33rd head: 16 stay, and as each head comes behind all others the next block gets it.
#[test]
fn blocks_fill_and_split(rt: HostRuntime) {
    let wanted = [(16, 100, 0), (16, 84, 16), (16, 68, 32), (22, 52, 48)];
    expect_seventy(&rt, rt.alloc(), &wanted);
}

// The heads are in these blocks once 8 of the first are gone, once 8 more are, and once 16 more are.
fn expect_fewer<R: Abort>(
    rt: &R,
    alloc: Global,
    first: &[(usize, i128, u32)],
    second: &[(usize, i128, u32)],
    third: &[(usize, i128, u32)],
) {
    let mut order = seventy(rt, alloc);
    take_out(&mut order, 0, 8);
    expect_blocks(rt, order.blocks(), first);
    take_out(&mut order, 16, 24);
    expect_blocks(rt, order.blocks(), second);
    take_out(&mut order, 32, 48);
    expect_blocks(rt, order.blocks(), third);
}

// 8 heads and the 16 of the next block stay apart; they are joined once 8 of those are gone too. A block whose last
// head goes is no more.
#[test]
fn blocks_join_and_empty(rt: HostRuntime) {
    let first = [(8, 92, 8), (16, 84, 16), (16, 68, 32), (22, 52, 48)];
    let second = [(16, 92, 8), (16, 68, 32), (22, 52, 48)];
    let third = [(16, 92, 8), (22, 52, 48)];
    expect_fewer(&rt, rt.alloc(), &first, &second, &third);
}
